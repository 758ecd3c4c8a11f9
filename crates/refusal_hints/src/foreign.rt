// Words and marks of other languages, and what is written in their place here.

// A word, and what is written in its place.
type Row = (&'static [u8], &'static [u8]);

const LOOP: &[u8] = b"write `i = 0; while i < n { .. i = i + 1; }`";

/// What is written in place of an `if` right after an `else`.
pub const ELSE_IF: &[u8] = b"write `else { if e { .. } }`";

const DECLARED: &[u8] = b"write `var x;` before the first statement of the task, and then `x = 3;`";

const STARTED: &[u8] = b"`fork t(e) into h;` starts a thread";

const JOINED: &[u8] = b"`join h into $x;` waits for a thread, `barrier b;` for several";

const LOCKED: &[u8] = b"write `lock l[i]; .. unlock l[i];`";

const TASK: &[u8] = b"write `task t(x) { .. }`, outside of other tasks";

const PRINTED: &[u8] = b"write `print e, g;`";

const CHOICE: &[u8] = b"write `if e { .. } else { .. }`";

const LEFT: &[u8] = b"the condition of the `while` tests a variable that is set";

const THROWN: &[u8] = b"there are no exceptions: an `if` tests before, and a `print` tells";

const CELLS: &[u8] =
    b"cells that are written are a record under its locks: `lock l[4]; record r[4] by l;`";

const ENDED: &[u8] =
    b"a thread ends with its task: what is not to be done then stands in the block of an `if`";

const RESULT: &[u8] = b"write `$ret = 3;` as the last statement; the others go into an `if`";

/// What is told where a block does not begin as it has to.
pub const BLOCK: &[u8] = b"a block stands between `{` and `}`";

const CLOSED: &[u8] = b"a block ends with `}`";

// Words that begin what is a statement in other languages.
static BEGINNINGS: [Row; 83] = [
    (b"for", LOOP),
    (b"foreach", LOOP),
    (b"loop", LOOP),
    (b"repeat", LOOP),
    (b"do", LOOP),
    (b"until", LOOP),
    (b"elif", ELSE_IF),
    (b"elsif", ELSE_IF),
    (b"elseif", ELSE_IF),
    (b"let", DECLARED),
    (b"int", DECLARED),
    (b"long", DECLARED),
    (b"float", DECLARED),
    (b"double", DECLARED),
    (b"bool", DECLARED),
    (b"string", DECLARED),
    (b"const", DECLARED),
    (b"auto", DECLARED),
    (b"set", DECLARED),
    (b"val", DECLARED),
    (b"uint", DECLARED),
    (b"integer", DECLARED),
    (b"boolean", DECLARED),
    (b"char", DECLARED),
    (b"static", DECLARED),
    (b"final", DECLARED),
    (b"local", DECLARED),
    (b"global", DECLARED),
    (b"spawn", STARTED),
    (b"start", STARTED),
    (b"thread", STARTED),
    (b"async", STARTED),
    (b"go", STARTED),
    (b"parallel", STARTED),
    (b"await", JOINED),
    (b"wait", JOINED),
    (b"sync", JOINED),
    (b"acquire", LOCKED),
    (b"release", LOCKED),
    (b"mutex", LOCKED),
    (b"synchronized", LOCKED),
    (b"with", LOCKED),
    (b"using", LOCKED),
    (b"atomic", LOCKED),
    (b"critical", LOCKED),
    (b"func", TASK),
    (b"def", TASK),
    (b"fn", TASK),
    (b"function", TASK),
    (b"proc", TASK),
    (b"procedure", TASK),
    (b"sub", TASK),
    (b"call", STARTED),
    (b"run", STARTED),
    (b"unless", b"write `if not (e) { .. }`"),
    (b"try", THROWN),
    (b"catch", THROWN),
    (b"throw", THROWN),
    (b"raise", THROWN),
    (b"pass", b"a block may be empty: `{ }`"),
    (
        b"delete",
        b"nothing is deleted: write 0, or a number that stands for none",
    ),
    (b"new", CELLS),
    (b"void", TASK),
    (b"printf", PRINTED),
    (b"println", PRINTED),
    (b"echo", PRINTED),
    (b"puts", PRINTED),
    (b"output", PRINTED),
    (b"switch", CHOICE),
    (b"case", CHOICE),
    (b"break", LEFT),
    (b"continue", LEFT),
    (b"return", RESULT),
    (b"exit", ENDED),
    (b"halt", ENDED),
    (b"stop", ENDED),
    (b"quit", ENDED),
    (b"begin", BLOCK),
    (b"end", CLOSED),
    (b"endif", CLOSED),
    (b"endwhile", CLOSED),
    (b"fi", CLOSED),
    (b"done", CLOSED),
];

// Words that stand between the parts of an expression, or name functions, in other languages.
static OPERATORS: [Row; 13] = [
    (b"mod", b"write `a % b`"),
    (b"div", b"write `a / b`"),
    (b"xor", b"write `(a == 0) != (b == 0)`"),
    (b"is", b"write `a == b`"),
    (b"equals", b"write `a == b`"),
    (b"between", b"write `0 <= i and i <= 5`"),
    (b"in", b"write `0 <= i and i <= 5`, or `i == 1 or i == 5`"),
    (b"then", BLOCK),
    (b"do", BLOCK),
    (b"begin", BLOCK),
    (b"end", CLOSED),
    (b"endif", CLOSED),
    (b"int", b"all values are whole numbers: write `var x;`"),
];

const CONSTANT: &[u8] = b"there are no constants: write the number where it is used";

const ALONE: &[u8] = b"a program is one text: there is nothing to bring in";

// Words that begin what stands outside of functions in other languages.
static HEADS: [Row; 17] = [
    (b"const", CONSTANT),
    (b"let", CONSTANT),
    (b"define", CONSTANT),
    (b"int", CELLS),
    (b"long", CELLS),
    (b"mutex", b"write `lock l[4];`"),
    (b"semaphore", b"write `lock l[4];`"),
    (b"array", CELLS),
    (b"table", CELLS),
    (b"shared", CELLS),
    (b"global", CELLS),
    (b"import", ALONE),
    (b"include", ALONE),
    (b"use", ALONE),
    (b"module", ALONE),
    (b"package", ALONE),
    (
        b"struct",
        b"several numbers of one thing are several records under one lock array",
    ),
];

const LEAST: &[u8] = b"`a + (b - a) * (b < a)` is the lesser of two";

const GREATEST: &[u8] = b"`a + (b - a) * (b > a)` is the greater of two";

const ROWS: &[u8] = b"`rows(f)` is the number of rows of feed f";

// Names of functions.
static FUNCTIONS: [Row; 8] = [
    (b"min", LEAST),
    (b"max", GREATEST),
    (
        b"abs",
        b"`a - 2 * a * (a < 0)` is the amount without its sign",
    ),
    (b"len", ROWS),
    (b"length", ROWS),
    (b"count", ROWS),
    (b"size", ROWS),
    (b"nrows", ROWS),
];

/// Whether two words are alike but for the case of their letters.
pub fn are_alike(one: &[u8], other: &[u8]) -> bool {
    if one.len() != other.len() {
        return false;
    }
    for at in 0..one.len() {
        if one[at].to_ascii_lowercase() != other[at].to_ascii_lowercase() {
            return false;
        }
    }
    true
}

/// Whether a word is one of these.
pub fn is_among(words: &[&[u8]], word: &[u8]) -> bool {
    for other in words {
        if **other == *word {
            return true;
        }
    }
    false
}

// What is told of a word in a table.
fn told_in(table: &[Row], word: &[u8]) -> Option<&'static [u8]> {
    for (other, told) in table {
        if are_alike(other, word) {
            return Some(told);
        }
    }
    None
}

/// What is written in place of a statement that begins with this word.
pub fn beginning(word: &[u8]) -> Option<&'static [u8]> {
    told_in(&BEGINNINGS, word)
}

/// What is written in place of a head that begins with this word, or else of a statement.
pub fn head(word: &[u8]) -> Option<&'static [u8]> {
    match told_in(&HEADS, word) {
        Some(told) => Some(told),
        None => beginning(word),
    }
}

/// What is written in place of this word where an operator or the end of an expression could stand.
pub fn operator(word: &[u8]) -> Option<&'static [u8]> {
    told_in(&OPERATORS, word)
}

/// What is written in place of a function of this name.
pub fn function(word: &[u8]) -> &'static [u8] {
    match told_in(&FUNCTIONS, word) {
        Some(told) => told,
        None => b"there are no functions; a task is called by `fork f(3) into h; join h into $x;`",
    }
}

const NO_VALUE: &[u8] =
    b"every value is a number: `0`, or one that is nowhere else used, stands for none";

// Names of values.
static VALUES: [Row; 7] = [
    (b"true", b"`1` and `0` stand for true and false"),
    (b"false", b"`1` and `0` stand for true and false"),
    (b"null", NO_VALUE),
    (b"nil", NO_VALUE),
    (b"none", NO_VALUE),
    (b"undefined", NO_VALUE),
    (b"nullptr", NO_VALUE),
];

/// What is written in place of a name that stands for a value in other languages.
pub fn value(word: &[u8]) -> Option<&'static [u8]> {
    told_in(&VALUES, word)
}

// Words of statements.
static STATEMENTS: [Row; 7] = [
    (b"lock", b"no parentheses: write `lock l[i];`"),
    (b"unlock", b"no parentheses: write `unlock l[i];`"),
    (b"barrier", b"no parentheses: write `barrier b;`"),
    (
        b"fork",
        b"no parentheses around the task: write `fork t(e) into h;`",
    ),
    (b"settle", b"no parentheses: write `settle $x into c;`"),
    (b"read", b"no parentheses: write `read r[i] into $x;`"),
    (b"write", b"no parentheses: write `write r[i] = e;`"),
];

/// What is written in place of the form that the word of a statement has with parentheses in other languages.
pub fn without_parentheses(word: &[u8]) -> Option<&'static [u8]> {
    told_in(&STATEMENTS, word)
}
