// The program of the batch.

/// Eight threads carry out the moves of a feed between accounts, each eighth move by one of them. A move takes the
/// locks of its two accounts in rising order, and is left out where an account would go below 0; their number is
/// printed.
pub const PROGRAM: &[u8] = b"lock bank[100];
record acct[100] by bank from \"acct.csv\";
feed moves[3] from \"moves.csv\";
task mover(first) {
  var i, lo, hi, amt, $x, $y;
  i = first;
  while i < rows(moves) {
    if moves[i, 0] < moves[i, 1] {
      lo = moves[i, 0];
      hi = moves[i, 1];
      amt = moves[i, 2];
    } else {
      lo = moves[i, 1];
      hi = moves[i, 0];
      amt = 0 - moves[i, 2];
    }
    lock bank[lo];
    lock bank[hi];
    read acct[lo] into $x;
    read acct[hi] into $y;
    when $x - amt >= 0 and $y + amt >= 0 {
      write acct[lo] = $x - amt;
      write acct[hi] = $y + amt;
    } else {
      $ret = $ret + 1;
    }
    unlock bank[hi];
    unlock bank[lo];
    i = i + 8;
  }
}
task main() {
  var w, $r, $bad;
  while w < 8 { fork mover(w); w = w + 1; }
  w = 1;
  while w <= 8 { join w into $r; $bad = $bad + $r; w = w + 1; }
  print $bad;
}
";
