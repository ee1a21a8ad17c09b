//! A line of a script, read as an order, or why it is a bad line.

ghost use Rattle.std.specs.Prelude.{◌*◌, ◌≡◌, ◌≤◌, IfOk, IfSome, length, option_map, position};
ghost use Rattle.std.specs.Prelude.{take};
ghost use Rattle.cedar_cli.specs.Words.{after_first, bad_line_of, bad_line_text, before_first};
ghost use Rattle.cedar_cli.specs.Words.{form_fault, is_space, key_of, lone_key_fault, order_of};
ghost use Rattle.cedar_cli.specs.Words.{pair_fault, result_err, result_ok, with_key};
ghost use Rattle.cedar_cli.specs.Words.{with_key_and_value};

use cedar_hex::decode_into;
use device_lines::{parse_number, position_of};

/// What a line says to do.
#[derive(Clone, Copy)]
pub(crate) enum Verb {
    /// Store this value.
    Put(i32),
    Erase,
    Exact,
    /// The prefixes of the key that are held.
    Prefixes,
    /// The keys that begin with the key.
    Predict,
    /// How many keys begin with the key.
    Count,
    /// All entries. The key is empty.
    Entries,
    /// How many keys and slots are held. The key is empty.
    Figures,
    /// Cut the key into tokens.
    Segment,
}

/// What to do, and how many bytes the key has that it is done with.
#[derive(Clone, Copy)]
pub(crate) struct Command {
    pub verb: Verb,
    pub key_len: usize,
}

/// Why a line of a script is bad: the first thing that it lacks, or that it doesn't end.
#[derive(Clone, Copy, Debug, PartialEq, Eq)]
pub enum BadLine {
    /// It has no byte.
    Empty,
    /// It doesn't begin with a sign.
    NoSign,
    /// No space follows a sign that has to have a key.
    NoSpace,
    /// What follows the space, in a line with `+` up to the next space, is no key.
    NoKey,
    /// No space and value follow the key in a line with `+`.
    NoValue,
    /// Something follows a sign that has to be alone.
    NotAlone,
}

impl BadLine {
    /// What has to be in such a line, in words.
    ///
    /// ```
    /// assert_eq!(rt; BadLine::NotAlone.text(), "the line has to end behind the sign");
    /// ```
    pub fn text(self) -> &'static str
        //= A reason has its text, which says what has to be in the line.
        ensures { result.now ≡ bad_line_text self }
    {
        match self {
            BadLine::Empty =>
                "it is empty, and has to begin with one of the signs + - = < > ? / * #",
            BadLine::NoSign => "it has to begin with one of the signs + - = < > ? / * #",
            BadLine::NoSpace => "a space and a key have to follow the sign",
            BadLine::NoKey => {
                "a key has to follow the space: . or pairs of hexadecimal digits, to the end of the line or, behind +, to the next space"
            }
            BadLine::NoValue => {
                "a space and a number from -2147483648 to 2147483647 have to follow the key"
            }
            BadLine::NotAlone => "the line has to end behind the sign",
        }
    }
}

/// Reads a line, and writes its key to the first bytes of `room`, which has a byte for two of the line's. It allocates nothing.
///
/// # Errors
/// Why the line is bad.
pub(crate) fn parse_line(line: &[u8], room: &mut [u8]) -> Result<Command, BadLine>
    requires room { length line.now ≤ 2 * length room.old }

    //= A line is read as an order or as a bad line by `order_of`, which allocates nothing (always).
    ensures order { option_map (λ c. (c.verb, take c.key_len room.new)) (result_ok result) ≡ order_of line.now }

    //= Exactly a line that is no order is bad, by the first thing that it lacks, or since it doesn't end (always). [by bad_line_of]
    ensures bad { result_err result ≡ bad_line_of line.now }
    ensures len { length room.new ≡ length room.old }
    ensures within { IfOk result (λ c. c.key_len ≤ length room.old) }
{
    match line {
        [b'+', b' ', rest @ ..] => parse_pair(rest, room),
        [b'-', b' ', rest @ ..] => parse_keyed(Verb::Erase, rest, room),
        [b'=', b' ', rest @ ..] => parse_keyed(Verb::Exact, rest, room),
        [b'<', b' ', rest @ ..] => parse_keyed(Verb::Prefixes, rest, room),
        [b'>', b' ', rest @ ..] => parse_keyed(Verb::Predict, rest, room),
        [b'?', b' ', rest @ ..] => parse_keyed(Verb::Count, rest, room),
        [b'/', b' ', rest @ ..] => parse_keyed(Verb::Segment, rest, room),
        [b'*'] => Ok(keyless(Verb::Entries)),
        [b'#'] => Ok(keyless(Verb::Figures)),
        _ => Err(form_fault(line)),
    }
}

/// What is wrong with a line that has none of the forms of lines.
fn form_fault(line: &[u8]) -> BadLine
    ensures { result ≡ form_fault line.now }
{
    match line {
        [] => BadLine::Empty,
        [b'+' | b'-' | b'=' | b'<' | b'>' | b'?' | b'/', ..] => BadLine::NoSpace,
        [b'*' | b'#', ..] => BadLine::NotAlone,
        _ => BadLine::NoSign,
    }
}

/// The command of a line without a key.
fn keyless(verb: Verb) -> Command
    ensures verb { result.verb ≡ verb }
    ensures key { result.key_len ≡ 0 }
{
    Command { verb, key_len: 0 }
}

/// Reads what follows `+` and a space.
fn parse_pair(text: &[u8], room: &mut [u8]) -> Result<Command, BadLine>
    requires room { length text.now ≤ 2 * length room.old }
    ensures order { option_map (λ c. (c.verb, take c.key_len room.new)) (result_ok result) ≡ with_key_and_value text.now }
    ensures bad { result_err result ≡ pair_fault text.now }
    ensures len { length room.new ≡ length room.old }
    ensures within { IfOk result (λ c. c.key_len ≤ length room.old) }
{
    let (key, value) = split_at_space(text);
    let Some(key_len) = parse_key(key, room) else {
        return Err(BadLine::NoKey);
    };
    let Some(value) = parse_number(value) else {
        return Err(BadLine::NoValue);
    };
    let verb = Verb::Put(value);
    Ok(Command { verb, key_len })
}

/// Reads what follows the verb in a line that has a key alone.
fn parse_keyed(verb: Verb, text: &[u8], room: &mut [u8]) -> Result<Command, BadLine>
    requires room { length text.now ≤ 2 * length room.old }
    ensures order { option_map (λ c. (c.verb, take c.key_len room.new)) (result_ok result) ≡ with_key verb text.now }
    ensures bad { result_err result ≡ lone_key_fault text.now }
    ensures len { length room.new ≡ length room.old }
    ensures within { IfOk result (λ c. c.key_len ≤ length room.old) }
{
    match parse_key(text, room) {
        Some(key_len) => Ok(Command { verb, key_len }),
        None => Err(BadLine::NoKey),
    }
}

/// Where the first space is.
fn position_of_space(text: &[u8]) -> Option<usize>
    ensures { result ≡ position is_space text.now }
{
    position_of(b' ', text)
}

/// The bytes before the first space, and those after it.
fn split_at_space(text: &[u8]) -> (&[u8], &[u8])
    ensures before { result.0.now ≡ before_first is_space text.now }
    ensures after { result.1.now ≡ after_first is_space text.now }
{
    match position_of_space(text) {
        Some(at) => (&text[..at], &text[at + 1..]),
        None => (text, &[]),
    }
}

/// Reads a key, `.` or pairs of hexadecimal digits, writes it to the first bytes of `room`, and returns how many bytes it has.
fn parse_key(text: &[u8], room: &mut [u8]) -> Option<usize>
    requires room { length text.now ≤ 2 * length room.old }
    ensures key { option_map (λ n. take n room.new) result ≡ key_of text.now }
    ensures len { length room.new ≡ length room.old }
    ensures within { IfSome result (λ n. n ≤ length room.old) }
{
    match text {
        [] => None,
        b"." => Some(0),
        _ => decode_into(text, room),
    }
}
