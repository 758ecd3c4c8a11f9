// The declarations at the head of a program.
ghost use Rattle.std.specs.Prelude.{◌≡◌, ◌<◌};
ghost use Rattle.task_parser.specs.inner.Classes.{among};
ghost use Rattle.task_parser.specs.inner.Reading.{begins, repeat};
ghost use Rattle.task_parser.specs.inner.ExpressionReaders.{number_of};
ghost use Rattle.task_parser.specs.inner.ProgramReaders.{read_sized, read_lock_head, read_barrier_head, read_from_file, read_record_head, read_feed_head, head_starts, read_head};
ghost use Rattle.task_parser.specs.inner.Gives.{Gives};

use crate::classes::*;
use crate::halt::Read;
use crate::next::{expect, expect_titled, is_next, is_of, past};
use crate::source::{Source, number};
use crate::token::Token;
use gp_base::{Name, Seq};
use task_ast::Head;

// The word, a name, a number between the two marks, and the word or mark after them.
#[tactic(auto, unfolding(crate::specs::inner::ProgramReaders::read_sized))]
fn sized<'a>(
    source: Source<'_>,
    word: u32,
    opener: u32,
    closer: u32,
    after: u32,
    tokens: &'a [Token],
) -> Read<'a, ((Token, Name), Token)>
    ensures { Gives (λ x. ((x.0.0, number_of x.0.1), x.1.now)) result (read_sized source.entry.text.now word opener closer after tokens.now) }
{
    let (head, rest) = expect_titled(source, word, opener, tokens)?;
    let (size, rest) = expect(rest, NUM)?;
    let rest = past(rest, closer)?;
    let rest = past(rest, after)?;
    Ok(((head, size), rest))
}

// `lock NAME [ NUM ] ;`
#[tactic(auto, unfolding(crate::specs::inner::ProgramReaders::read_lock_head))]
fn lock_head<'a>(source: Source<'_>, tokens: &'a [Token]) -> Read<'a, Head>
    ensures { Gives (λ x. (x.0, x.1.now)) result (read_lock_head source.entry.text.now tokens.now) }
{
    let (((word, name), size), rest) = sized(
        source,
        LOCK,
        OPEN_BRACKET,
        CLOSE_BRACKET,
        SEMICOLON,
        tokens,
    )?;
    let size = number(size);
    let line = word.line;
    Ok((Head::LockHead { name, size, line }, rest))
}

// `barrier NAME ( NUM ) ;`
#[tactic(auto, unfolding(crate::specs::inner::ProgramReaders::read_barrier_head))]
fn barrier_head<'a>(source: Source<'_>, tokens: &'a [Token]) -> Read<'a, Head>
    ensures { Gives (λ x. (x.0, x.1.now)) result (read_barrier_head source.entry.text.now tokens.now) }
{
    let (((word, name), count), rest) = sized(
        source,
        BARRIER,
        OPEN_PAREN,
        CLOSE_PAREN,
        SEMICOLON,
        tokens,
    )?;
    let number = number(count);
    let line = word.line;
    Ok((Head::BarrierHead { name, number, line }, rest))
}

// The name of the file after a `from`, if there is one.
#[tactic(auto, unfolding(crate::specs::inner::ProgramReaders::read_from_file))]
fn from_file<'a>(source: Source<'_>, tokens: &'a [Token]) -> Read<'a, Option<Name>>
    ensures { Gives (λ x. (x.0, x.1.now)) result (read_from_file source.entry.text.now tokens.now) }
{
    if !is_next(tokens, FROM) {
        return Ok((None, tokens));
    }
    let rest = past(tokens, FROM)?;
    let (token, rest) = expect(rest, QUOTED)?;
    Ok((Some(source.file(token)?), rest))
}

// `record NAME [ NUM ] by NAME from TEXT ;`, where the `from` may be left out
#[tactic(auto, unfolding(crate::specs::inner::ProgramReaders::read_record_head))]
fn record_head<'a>(source: Source<'_>, tokens: &'a [Token]) -> Read<'a, Head>
    ensures { Gives (λ x. (x.0, x.1.now)) result (read_record_head source.entry.text.now tokens.now) }
{
    let (((word, name), size), rest) = sized(
        source,
        RECORD,
        OPEN_BRACKET,
        CLOSE_BRACKET,
        BY,
        tokens,
    )?;
    let (array, rest) = expect(rest, NAME)?;
    let (from, rest) = from_file(source, rest)?;
    let rest = past(rest, SEMICOLON)?;
    let by = source.name(array)?;
    let size = number(size);
    let line = word.line;
    Ok((
        Head::RecHead {
            name,
            size,
            by,
            from,
            line,
        },
        rest,
    ))
}

// `feed NAME [ NUM ] from TEXT ;`
#[tactic(auto, unfolding(crate::specs::inner::ProgramReaders::read_feed_head))]
fn feed_head<'a>(source: Source<'_>, tokens: &'a [Token]) -> Read<'a, Head>
    ensures { Gives (λ x. (x.0, x.1.now)) result (read_feed_head source.entry.text.now tokens.now) }
{
    let (((word, name), count), rest) = sized(
        source,
        FEED,
        OPEN_BRACKET,
        CLOSE_BRACKET,
        FROM,
        tokens,
    )?;
    let (quoted, rest) = expect(rest, QUOTED)?;
    let rest = past(rest, SEMICOLON)?;
    let fields = number(count);
    let from = source.file(quoted)?;
    let line = word.line;
    Ok((
        Head::FeedHead {
            name,
            fields,
            from,
            line,
        },
        rest,
    ))
}

// A declaration of a lock array, a barrier, a record or a feed.
#[tactic(auto, unfolding(crate::specs::inner::ProgramReaders::read_head))]
fn head<'a>(source: Source<'_>, tokens: &'a [Token]) -> Read<'a, Head>
    ensures { Gives (λ x. (x.0, x.1.now)) result (read_head source.entry.text.now tokens.now) }
{
    if is_next(tokens, LOCK) {
        lock_head(source, tokens)
    } else if is_next(tokens, BARRIER) {
        barrier_head(source, tokens)
    } else if is_next(tokens, RECORD) {
        record_head(source, tokens)
    } else {
        feed_head(source, tokens)
    }
}

// Whether a head is next.
fn begins_head(tokens: &[Token]) -> bool
    ensures { result ≡ begins (among head_starts) tokens.now }
{
    let [token, ..] = tokens else {
        return false;
    };
    is_of(*token, LOCK) || is_of(*token, BARRIER) || is_of(*token, RECORD) || is_of(*token, FEED)
}

/// As many heads as there are.
pub fn heads<'a>(source: Source<'_>, tokens: &'a [Token]) -> Read<'a, Seq<Head>>
    ensures { Gives (λ x. (x.0, x.1.now)) result (repeat (among head_starts) (read_head source.entry.text.now) tokens.now) }
{
    let mut heads = Seq::new(source.alloc);
    let mut rest = tokens;
    while begins_head(rest) {
        let (next, after) = head(source, rest)?;
        heads.push(next)?;
        rest = after;
    }
    Ok((heads, rest))
}
