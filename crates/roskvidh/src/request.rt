//! What the arguments say.

use cedarwood::DEFAULT_LOAD_MEMORY_LIMIT;
use clap::ArgMatches;

/// What the arguments say, and whether they say that it is reported how far a list or a text is read.
#[derive(Clone, Copy)]
pub(crate) struct Asked<'m> {
    pub request: Request<'m>,
    pub progress: bool,
}

/// What is to be done.
#[derive(Clone, Copy)]
pub(crate) enum Request<'m> {
    Build(Build<'m>),
    Query(Dictionary<'m>, Query<'m>),
    Text(Dictionary<'m>, Reading<'m>),
    Change(Dictionary<'m>, Change<'m>),
    Diff(Dictionary<'m>, Dictionary<'m>),
    Replace(Replace<'m>),
    Recover(Recover<'m>),
}

/// A new store that is made of what is whole in a damaged one.
#[derive(Clone, Copy)]
pub(crate) struct Recover<'m> {
    /// The damaged one's path.
    pub old: &'m str,
    /// The new one's.
    pub new: &'m str,
}

/// A text whose words are replaced.
#[derive(Clone, Copy)]
pub(crate) struct Replace<'m> {
    /// The list of the words and what each is replaced by.
    pub list: &'m str,
    /// The text's path; standard input if there is none.
    pub text: Option<&'m str>,
    /// Whether a bad line or a repeated word ends it before the text is read.
    pub strict: bool,
}

/// Which of the standard streams are terminals.
#[derive(Clone, Copy)]
pub(crate) struct Terminals {
    pub input: bool,
    pub output: bool,
    pub errors: bool,
}

/// How a dictionary is changed, and where it is saved then.
#[derive(Clone, Copy)]
pub(crate) struct Change<'m> {
    pub how: How<'m>,
    /// Where the changed dictionary is saved.
    pub output: &'m str,
    /// Whether it is saved in format 1.0.
    pub old_format: bool,
    /// Whether it is a store, which is made if the file is missing or empty.
    pub is_store: bool,
}

/// What is changed.
#[derive(Clone, Copy)]
pub(crate) enum How<'m> {
    /// The entries of a list are stored.
    Add(List<'m>),
    /// The words of a list are removed.
    Remove(Option<&'m str>),
    /// The entries of another dictionary are stored.
    Merge(Dictionary<'m>),
    /// Nothing but the file's format and layout: the reduced one, the other one, or the one that it has.
    Convert(Option<bool>),
}

/// A word list.
#[derive(Clone, Copy)]
pub(crate) struct List<'m> {
    /// Its path; standard input if there is none.
    pub path: Option<&'m str>,
    /// Whether a bad line or a repeated word leaves no file.
    pub strict: bool,
}

/// A dictionary that is made of a word list.
#[derive(Clone, Copy)]
pub(crate) struct Build<'m> {
    pub list: List<'m>,
    /// Where the dictionary is saved.
    pub output: &'m str,
    pub reduced: bool,
    pub unordered: bool,
}

/// A dictionary's file.
#[derive(Clone, Copy)]
pub(crate) struct Dictionary<'m> {
    pub path: &'m str,
    /// How many bytes a load may allocate.
    pub limit: usize,
}

/// A query of a dictionary alone.
#[derive(Clone, Copy)]
pub(crate) enum Query<'m> {
    Get(&'m [&'m str]),
    Prefixes(&'m str),
    Complete(Completions<'m>),
    /// How many words begin so.
    Count(&'m str),
    /// Whether the file is well-formed, and of what kind it is.
    Check,
    /// The figures, and whether a bar for each length of word is wanted.
    Stats(bool),
    List,
    ListFrom(&'m str),
    ListUnder(&'m str),
    /// The words that begin so as a tree in text, or as a drawing.
    Show(&'m str, bool),
}

/// What completes a prefix.
#[derive(Clone, Copy)]
pub(crate) struct Completions<'m> {
    pub prefix: &'m str,
    /// How many are listed at most; all if there is no such number.
    pub most: Option<u64>,
    /// How many of those with the highest numbers are listed in place of all.
    pub best: Option<u64>,
    /// How many edits a beginning of a word may be away from the prefix.
    pub within: Option<Edits>,
}

/// How many characters are put in, taken out or changed at most.
#[derive(Clone, Copy)]
pub(crate) enum Edits {
    One,
    Two,
}

/// A query of a dictionary and a text.
#[derive(Clone, Copy)]
pub(crate) struct Reading<'m> {
    /// The text's path; standard input if there is none.
    pub text: Option<&'m str>,
    pub task: Task<'m>,
}

/// What words cost, and text that no word has, as the arguments say it.
#[derive(Clone, Copy)]
pub(crate) struct Costing<'m> {
    /// The path of a file with a cost for each number; None if words cost their numbers.
    pub words: Option<&'m str>,
    /// What text costs that no word has.
    pub unknown: Option<&'m str>,
}

/// What is done with a text.
#[derive(Clone, Copy)]
pub(crate) enum Task<'m> {
    /// Cut it, with this sign between words.
    Cut(&'m str),
    /// Cut it so that its words have the least costs together.
    CutByCost(Costing<'m>, &'m str),
    /// Find all words that occur in it.
    Scan,
    /// Find those that don't overlap.
    ScanLongest,
    /// Write the lines in which those occur, with each of them marked.
    ScanMarked,
}

/// What the arguments say; None if the command is none of the program's, which no parse gives.
pub(crate) fn asked_of<'m, 'a>(matches: &'m ArgMatches<'a>) -> Option<Asked<'m>> {
    let (name, asked) = matches.subcommand()?;
    let request = request_of(name, asked)?;
    let progress = asked.get_flag("progress");
    Some(Asked { request, progress })
}

/// What a command says with these arguments.
fn request_of<'m, 'a>(name: &str, asked: &'m ArgMatches<'a>) -> Option<Request<'m>> {
    if let Some(request) = query_named(name, asked) {
        return Some(request);
    }
    if let Some(request) = reading_named(name, asked) {
        return Some(request);
    }
    change_named(name, asked)
}

/// What a command says that asks one dictionary or two.
fn query_named<'m, 'a>(name: &str, asked: &'m ArgMatches<'a>) -> Option<Request<'m>> {
    match name {
        "get" => query_of(asked, Query::Get(asked.get_strs("word")?)),
        "prefixes" => query_of(asked, Query::Prefixes(asked.get_str("text")?)),
        "complete" => query_of(asked, complete_of(asked)?),
        "count" => query_of(asked, Query::Count(asked.get_str("prefix")?)),
        "list" => query_of(asked, list_of(asked)),
        "check" => query_of(asked, Query::Check),
        "stats" => query_of(asked, Query::Stats(asked.get_flag("chart"))),
        "show" => query_of(asked, show_of(asked)),
        "diff" => diff_of(asked),
        _ => None,
    }
}

/// What a command says that reads a text.
fn reading_named<'m, 'a>(name: &str, asked: &'m ArgMatches<'a>) -> Option<Request<'m>> {
    match name {
        "cut" => reading_of(asked, cut_of(asked, asked.get_str("sign")?)),
        "scan" => reading_of(asked, scan_of(asked)),
        "replace" => replace_of(asked),
        _ => None,
    }
}

/// What a command says that makes or changes a file.
fn change_named<'m, 'a>(name: &str, asked: &'m ArgMatches<'a>) -> Option<Request<'m>> {
    match name {
        "build" => build_of(asked),
        "add" => in_place(
            asked,
            How::Add(word_list_of(asked)),
            asked.get_flag("store"),
        ),
        "remove" => in_place(asked, How::Remove(path_of(asked.get_str("words"))), false),
        "merge" => elsewhere(asked, How::Merge(other_of(asked)?)),
        "convert" => elsewhere(asked, How::Convert(layout_of(asked))),
        "recover" => recover_of(asked),
        _ => None,
    }
}

fn complete_of<'m, 'a>(asked: &'m ArgMatches<'a>) -> Option<Query<'m>> {
    Some(Query::Complete(Completions {
        prefix: asked.get_str("prefix")?,
        most: asked.get_one("most"),
        best: asked.get_one("best"),
        within: edits_of(asked),
    }))
}

fn edits_of<'m, 'a>(asked: &'m ArgMatches<'a>) -> Option<Edits> {
    match asked.get_str("within")? {
        "1" => Some(Edits::One),
        "2" => Some(Edits::Two),
        _ => None,
    }
}

fn diff_of<'m, 'a>(asked: &'m ArgMatches<'a>) -> Option<Request<'m>> {
    let first = dictionary_of(asked)?;
    Some(Request::Diff(first, other_of(asked)?))
}

fn build_of<'m, 'a>(asked: &'m ArgMatches<'a>) -> Option<Request<'m>> {
    let output = asked.get_str("output")?;
    Some(Request::Build(Build {
        list: word_list_of(asked),
        output,
        reduced: asked.get_flag("reduced"),
        unordered: asked.get_flag("unordered"),
    }))
}

fn query_of<'m, 'a>(asked: &'m ArgMatches<'a>, query: Query<'m>) -> Option<Request<'m>> {
    Some(Request::Query(dictionary_of(asked)?, query))
}

fn reading_of<'m, 'a>(asked: &'m ArgMatches<'a>, task: Task<'m>) -> Option<Request<'m>> {
    let text = path_of(asked.get_str("text"));
    Some(Request::Text(dictionary_of(asked)?, Reading { text, task }))
}

/// A change that is saved in the dictionary's own file.
fn in_place<'m, 'a>(
    asked: &'m ArgMatches<'a>,
    how: How<'m>,
    is_store: bool,
) -> Option<Request<'m>> {
    let dictionary = dictionary_of(asked)?;
    let change = Change {
        how,
        output: dictionary.path,
        old_format: false,
        is_store,
    };
    Some(Request::Change(dictionary, change))
}

/// A change that is saved in another file.
fn elsewhere<'m, 'a>(asked: &'m ArgMatches<'a>, how: How<'m>) -> Option<Request<'m>> {
    let change = Change {
        how,
        output: asked.get_str("output")?,
        old_format: asked.get_flag("v1-0"),
        is_store: false,
    };
    Some(Request::Change(dictionary_of(asked)?, change))
}

fn recover_of<'m, 'a>(asked: &'m ArgMatches<'a>) -> Option<Request<'m>> {
    let old = asked.get_str("file")?;
    Some(Request::Recover(Recover {
        old,
        new: asked.get_str("new")?,
    }))
}

fn word_list_of<'m, 'a>(asked: &'m ArgMatches<'a>) -> List<'m> {
    List {
        path: path_of(asked.get_str("words")),
        strict: asked.get_flag("strict"),
    }
}

/// The second dictionary.
fn other_of<'m, 'a>(asked: &'m ArgMatches<'a>) -> Option<Dictionary<'m>> {
    let path = asked.get_str("other")?;
    Some(Dictionary {
        path,
        ..dictionary_of(asked)?
    })
}

/// Whether the reduced layout is wanted, or the other one.
fn layout_of(asked: &ArgMatches<'_>) -> Option<bool> {
    if asked.get_flag("reduced") {
        return Some(true);
    }
    if asked.get_flag("default") {
        return Some(false);
    }
    None
}

fn dictionary_of<'m, 'a>(asked: &'m ArgMatches<'a>) -> Option<Dictionary<'m>> {
    Some(Dictionary {
        path: asked.get_str("file")?,
        limit: asked.get_one("limit").unwrap_or(DEFAULT_LOAD_MEMORY_LIMIT),
    })
}

fn list_of<'m, 'a>(asked: &'m ArgMatches<'a>) -> Query<'m> {
    if let Some(word) = asked.get_str("from") {
        return Query::ListFrom(word);
    }
    match asked.get_str("prefix") {
        Some(prefix) => Query::ListUnder(prefix),
        None => Query::List,
    }
}

fn cut_of<'m, 'a>(asked: &'m ArgMatches<'a>, sign: &'m str) -> Task<'m> {
    let costing = Costing {
        words: asked.get_str("costs"),
        unknown: asked.get_str("unknown"),
    };
    if asked.get_flag("cheapest") || costing.words.is_some() {
        Task::CutByCost(costing, sign)
    } else {
        Task::Cut(sign)
    }
}

fn replace_of<'m, 'a>(asked: &'m ArgMatches<'a>) -> Option<Request<'m>> {
    let list = asked.get_str("pairs")?;
    Some(Request::Replace(Replace {
        list,
        text: path_of(asked.get_str("text")),
        strict: asked.get_flag("strict"),
    }))
}

/// Whether it is reported how far a list or a text is read: if the arguments say so; and otherwise on a terminal, unless somebody types the
/// text there or reads the results.
pub(crate) fn tells_progress(asked: Asked<'_>, terminals: Terminals) -> bool {
    let Some((is_typed, is_answered)) = reads(asked.request) else {
        return false;
    };
    if asked.progress {
        return true;
    }
    terminals.errors && !(is_typed && terminals.input) && !(is_answered && terminals.output)
}

/// Whether a list or a text comes from standard input, and whether the results go to standard output; None if none is read.
fn reads(request: Request<'_>) -> Option<(bool, bool)> {
    match request {
        Request::Build(asked) => Some((asked.list.path.is_none(), false)),
        Request::Text(_, reading) => Some((reading.text.is_none(), true)),
        Request::Replace(asked) => Some((asked.text.is_none(), true)),
        Request::Change(_, change) => match change.how {
            How::Add(list) => Some((list.path.is_none(), false)),
            How::Remove(path) => Some((path.is_none(), false)),
            How::Merge(_) | How::Convert(_) => None,
        },
        Request::Query(_, _) | Request::Diff(_, _) | Request::Recover(_) => None,
    }
}

fn show_of<'m, 'a>(asked: &'m ArgMatches<'a>) -> Query<'m> {
    let prefix = match asked.get_str("prefix") {
        Some(prefix) => prefix,
        None => "",
    };
    Query::Show(prefix, asked.get_flag("dot"))
}

fn scan_of<'m>(asked: &ArgMatches<'_>) -> Task<'m> {
    if asked.get_flag("color") {
        Task::ScanMarked
    } else if asked.get_flag("only-longest") {
        Task::ScanLongest
    } else {
        Task::Scan
    }
}

/// The path of a file; None for standard input, which `-` means.
fn path_of(path: Option<&str>) -> Option<&str> {
    match path {
        Some("-") => None,
        _ => path,
    }
}
