//! What the program prints about itself.

/// What `--version` prints.
pub(crate) const VERSION: &str = "cedar 0.1.0\n";

/// What `--help` prints.
pub(crate) const HELP: &str = "\
Answers a script of a dictionary, a line each.

Usage: cedar [OPTIONS] < SCRIPT

Options:
  --load PATH    Begin with the dictionary of this file; without it, with an empty one
  --limit BYTES  How much memory a load may ask for; 536870912 if not said
  --save PATH    Save the dictionary in this file once all lines are answered
  --v1-0         Save it in format 1.0, which older programs read
  --reduced      Dictionary and files are of the reduced layout; cedar-reduced is cedar --reduced
  --unordered    Put new labels first; a loaded dictionary has its own order
  --explain      Say on standard error why a line is bad
  --help         Print help, given alone
  --version      Print the version, given alone

Lines, where K is a key in hexadecimal digits, . the empty one, and V a value:
  + K V  store V at K: ok, or refused and why
  - K    erase K: erased, or absent
  = K    look K up: its value and its length in bytes, or none
  < K    list the keys that K begins with: V:N each, the value and the position of the last byte, or none
  > K    list the keys that begin with K: V:N each, the value and how many bytes follow K, or none
  ? K    count the keys that begin with K: how many they are
  *      list all keys: a line K V each, and then end
  #      count: how many keys and how many slots are held
  / K    cut K into tokens: S:L:V each, the position, the length and the value or -, or none
Any other line is answered by: bad line

Status: 0 done, 1 a fault of input, output, memory or slots, 2 wrong arguments, 3 a file that can't be loaded or saved.

Example:
  printf '+ 6e6574 7\\n= 6e6574\\n' | cedar --save words.cedar
";
