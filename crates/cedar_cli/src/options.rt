//! The program's options.

ghost use Rattle.std.specs.Prelude.{◌≡◌, option_map};
ghost use Rattle.cedar_cli.specs.Words.{is_excluded, limit_of, limit_or_default, request_besides};
ghost use Rattle.cedar_cli.specs.Words.{request_in, request_of, words};

use cedarwood::DEFAULT_LOAD_MEMORY_LIMIT;

/// What the arguments say.
#[derive(Clone, Copy)]
pub(crate) struct Options<'a> {
    /// Whether the labels of each node are to ascend.
    pub ordered: bool,
    /// The file that the dictionary comes from.
    pub load: Option<&'a str>,
    /// How many bytes that load may allocate.
    pub limit: Option<usize>,
    /// The file that it is saved in.
    pub save: Option<&'a str>,
    /// Whether it is saved in format 1.0.
    pub v1_0: bool,
    /// Whether the dictionary and its files are of the reduced layout.
    pub reduced: bool,
}

/// What the arguments say, or None if they are wrong.
pub(crate) fn options_of<'a>(arguments: &[&'a str]) -> Option<Options<'a>>
    ensures { option_map request_in result ≡ request_of arguments.now }
{
    let nothing = Options {
        ordered: true,
        load: None,
        limit: None,
        save: None,
        v1_0: false,
        reduced: false,
    };
    with_options(nothing, arguments)
}

/// What some arguments say beside those before them, or None if they are wrong.
fn with_options<'a>(options: Options<'a>, arguments: &[&'a str]) -> Option<Options<'a>>
    ensures { option_map request_in result ≡ request_besides (request_in options.entry) (words arguments.now) }
{
    let Some((word, after)) = arguments.split_first() else {
        return if is_excluded(options) {
            None
        } else {
            Some(options)
        };
    };
    if *word == "--unordered" && options.ordered {
        let ordered = false;
        return with_options(Options { ordered, ..options }, after);
    }
    if *word == "--v1-0" && !options.v1_0 {
        let v1_0 = true;
        return with_options(Options { v1_0, ..options }, after);
    }
    if *word == "--reduced" && !options.reduced {
        let reduced = true;
        return with_options(Options { reduced, ..options }, after);
    }
    let (value, after) = after.split_first()?;
    if *word == "--load" && options.load.is_none() {
        let load = Some(*value);
        return with_options(Options { load, ..options }, after);
    }
    if *word == "--save" && options.save.is_none() {
        let save = Some(*value);
        return with_options(Options { save, ..options }, after);
    }
    if *word == "--limit" && options.limit.is_none() {
        let bytes = limit_of(value)?;
        let limit = Some(bytes);
        return with_options(Options { limit, ..options }, after);
    }
    None
}

/// A number of bytes.
fn limit_of(text: &str) -> Option<usize>
    ensures { result ≡ limit_of text.now }
{
    text.parse().ok()
}

/// How many bytes a load may allocate.
pub(crate) fn limit_or_default(limit: Option<usize>) -> usize
    ensures { result ≡ limit_or_default limit }
{
    limit.unwrap_or(DEFAULT_LOAD_MEMORY_LIMIT)
}

/// Whether the options don't go together: a loaded dictionary has its own order, a format is one to save in, and a limit is one of a load.
fn is_excluded(options: Options<'_>) -> bool
    ensures { result ≡ is_excluded (request_in options.entry) }
{
    let two_orders = !options.ordered & options.load.is_some();
    let no_save = options.v1_0 & options.save.is_none();
    let no_load = options.limit.is_some() & options.load.is_none();
    two_orders | no_save | no_load
}
