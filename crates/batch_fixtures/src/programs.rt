// Programs that tests of several calls run, and what they write.

/// The line of words of no command.
pub const USAGE: &str = "gprs: usage: run | one | check | soak\n";

/// Nothing to do.
pub const EMPTY: &str = "task main() { }";

/// Two lines.
pub const PRINTS: &str = "task main() { print 7; print 0042; }";

/// Sums, quotients and remainders at the ends of the numbers.
pub const EDGES: &str = "task main() {
  var $a;
  $a = 9223372036854775807;
  print $a + 1;
  print (0 - $a - 1) / -1;
  print 7 / 0, 7 % 0, -7 / 2, -7 % 2;
}
";

/// Two threads add to one total, each under its lock.
pub const ADD: &str = "lock tally[1];
record total[1] by tally;
task add(n) {
  var $t;
  lock tally[0];
  read total[0] into $t;
  write total[0] = $t + n;
  unlock tally[0];
}
task main() {
  fork add(3);
  fork add(4);
  join 1;
  join 2;
}
";

/// What the run of `ADD` writes.
pub const ADDED: &str =
    "output\nrecords\ntotal: 7\nrestarts\ncounts\nsubthreads 11\nrestarts 0\nredone 0\nunused 0\n";

/// A record names the account that is written.
pub const ROUTED: &str = "lock bank[3];
record acct[3] by bank;
task main() {
  var i, $x;
  lock bank[0];
  write acct[0] = 2;
  read acct[0] into $x;
  unlock bank[0];
  settle $x into i;
  lock bank[i];
  write acct[i] = 9;
  unlock bank[i];
}
";
