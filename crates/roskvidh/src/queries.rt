//! Queries of a dictionary alone.

use crate::chart::write_chart;
use crate::completions::complete;
use crate::dictionary::{Kind, SLOTS};
use crate::fault::Fault;
use crate::request::{Dictionary, Query};
use crate::run::true_if_done;
use cedarwood::{Layout, Trie, Watched};
use std::alloc::Global;
use std::io::Write;
use word_lists::{
    read_word, write_count, write_drawing, write_fronts, write_next_entries, write_number,
    write_tree,
};

/// Runs a query, and returns whether something was found: of words that are looked up, all of them.
pub(crate) fn answer<'m, L: Layout, W: Write>(
    alloc: Global,
    trie: &Trie<L, SLOTS, Global>,
    dictionary: Dictionary<'m>,
    kind: Kind,
    query: Query<'m>,
    writer: &mut Watched<W>,
) -> Result<bool, Fault<'m>> {
    let mut word = Vec::new(alloc);
    read_word(text_of(query).as_bytes(), &mut word)?;
    match query {
        Query::Get(words) => get(trie, words, &mut word, writer),
        Query::Prefixes(_) => prefixes(trie, &word, writer),
        Query::Complete(completions) => complete(alloc, trie, &word, completions, writer),
        Query::Count(_) => count(trie, &word, writer),
        Query::Check => true_if_done(check(trie, dictionary, kind, writer)),
        Query::Stats(chart) => true_if_done(stats(alloc, trie, chart, writer)),
        Query::Show(_, is_drawing) => show(alloc, trie, &word, is_drawing, writer),
        Query::List | Query::ListUnder(_) => list(alloc, trie, &word, writer),
        Query::ListFrom(_) => list_from(alloc, trie, dictionary, &word, writer),
    }
}

/// The text of a query, as the arguments have it. A list of all words is one of those that begin with no byte.
fn text_of<'m>(query: Query<'m>) -> &'m str {
    match query {
        Query::Prefixes(text)
        | Query::Count(text)
        | Query::Show(text, _)
        | Query::ListUnder(text)
        | Query::ListFrom(text) => text,
        Query::Complete(completions) => completions.prefix,
        Query::Get(_) | Query::Check | Query::Stats(_) | Query::List => "",
    }
}

/// Lists the words that a text begins with, and returns whether there is one.
fn prefixes<'m, L: Layout, W: Write>(
    trie: &Trie<L, SLOTS, Global>,
    text: &[u8],
    writer: &mut Watched<W>,
) -> Result<bool, Fault<'m>> {
    Ok(write_fronts(writer, trie, text)?)
}

/// Writes how many words begin with a prefix, and returns whether there is one.
fn count<'m, L: Layout, W: Write>(
    trie: &Trie<L, SLOTS, Global>,
    prefix: &[u8],
    writer: &mut Watched<W>,
) -> Result<bool, Fault<'m>> {
    Ok(write_count(writer, trie, prefix)?)
}

/// Lists the words that begin with a prefix.
fn list<'m, L: Layout, W: Write>(
    alloc: Global,
    trie: &Trie<L, SLOTS, Global>,
    prefix: &[u8],
    writer: &mut Watched<W>,
) -> Result<bool, Fault<'m>> {
    list_under(alloc, trie, prefix, u64::MAX, writer)?;
    Ok(true)
}

/// Writes the figures of a dictionary, and a bar for each length of word if they are wanted.
fn stats<'m, L: Layout, W: Write>(
    alloc: Global,
    trie: &Trie<L, SLOTS, Global>,
    chart: bool,
    writer: &mut Watched<W>,
) -> Result<(), Fault<'m>> {
    write_figures(trie, writer)?;
    if chart {
        return write_chart(alloc, trie, writer);
    }
    Ok(())
}

/// Shows the words that begin with a prefix as a tree, and returns whether there is one.
fn show<'m, L: Layout, W: Write>(
    alloc: Global,
    trie: &Trie<L, SLOTS, Global>,
    prefix: &[u8],
    is_drawing: bool,
    writer: &mut Watched<W>,
) -> Result<bool, Fault<'m>> {
    let entries = trie.entries_with_prefix_bytes(prefix);
    let shown = if is_drawing {
        write_drawing(alloc, writer, entries)
    } else {
        write_tree(alloc, writer, entries)
    };
    Ok(shown?)
}

/// Writes of what kind a file is that was loaded.
fn check<'m, L: Layout, W: Write>(
    trie: &Trie<L, SLOTS, Global>,
    dictionary: Dictionary<'m>,
    kind: Kind,
    writer: &mut Watched<W>,
) -> Result<(), Fault<'m>> {
    let path = dictionary.path;
    let kind = kind_name(kind);
    let order = order_name(trie);
    let entries = trie.len();
    match writeln!(
        writer,
        "{path}: well-formed, {kind}, {order}, words: {entries}"
    ) {
        Ok(()) => Ok(()),
        Err(_) => Err(Fault::Write),
    }
}

/// Writes the figures of a dictionary, a line each.
fn write_figures<'m, L: Layout, W: Write>(
    trie: &Trie<L, SLOTS, Global>,
    writer: &mut Watched<W>,
) -> Result<(), Fault<'m>> {
    write_form(trie, writer)?;
    let figures = trie.memory_stats();
    let rows = [
        ("words", figures.entries),
        ("slots held", figures.used_node_slots),
        ("slots", figures.node_capacity),
        ("bytes", figures.allocated_bytes),
    ];
    for (name, number) in &rows {
        if writeln!(writer, "{name}\t{number}").is_err() {
            return Err(Fault::Write);
        }
    }
    Ok(())
}

/// Writes the layout and the order of a dictionary, a line each.
fn write_form<'m, L: Layout, W: Write>(
    trie: &Trie<L, SLOTS, Global>,
    writer: &mut Watched<W>,
) -> Result<(), Fault<'m>> {
    let layout = layout_name::<L>();
    let order = order_name(trie);
    match writeln!(writer, "layout\t{layout}\norder\t{order}") {
        Ok(()) => Ok(()),
        Err(_) => Err(Fault::Write),
    }
}

/// The name of a kind of file.
fn kind_name(kind: Kind) -> &'static str {
    match kind {
        Kind::Default => "default layout",
        Kind::Reduced => "reduced layout",
        Kind::Store => "store",
    }
}

/// The name of a layout.
fn layout_name<L: Layout>() -> &'static str {
    if L::keeps_numbers() {
        "reduced"
    } else {
        "default"
    }
}

/// The name of a dictionary's order.
fn order_name<L: Layout>(trie: &Trie<L, SLOTS, Global>) -> &'static str {
    if trie.entries_from_bytes(&[]).is_some() {
        "ordered"
    } else {
        "unordered"
    }
}

/// Looks words up, and returns whether all are held.
fn get<'m, L: Layout, W: Write>(
    trie: &Trie<L, SLOTS, Global>,
    words: &[&str],
    word: &mut Vec<u8>,
    writer: &mut Watched<W>,
) -> Result<bool, Fault<'m>> {
    let mut all = true;
    for text in words {
        read_word(text.as_bytes(), word)?;
        all = write_number(writer, trie, word)? && all;
    }
    Ok(all)
}

/// Lists the entries whose words begin with a prefix, so many at most, and returns how many these are.
pub(crate) fn list_under<'m, L: Layout, W: Write>(
    alloc: Global,
    trie: &Trie<L, SLOTS, Global>,
    prefix: &[u8],
    most: u64,
    writer: &mut Watched<W>,
) -> Result<u64, Fault<'m>> {
    let mut key = Vec::new(alloc);
    let mut entries = trie.entries_with_prefix_bytes(prefix);
    Ok(write_next_entries(writer, &mut entries, most, &mut key)?)
}

/// Lists the entries from a word on.
fn list_from<'m, L: Layout, W: Write>(
    alloc: Global,
    trie: &Trie<L, SLOTS, Global>,
    dictionary: Dictionary<'m>,
    first: &[u8],
    writer: &mut Watched<W>,
) -> Result<bool, Fault<'m>> {
    let Some(mut entries) = trie.entries_from_bytes(first) else {
        return Err(Fault::Unordered(dictionary.path));
    };
    let mut key = Vec::new(alloc);
    write_next_entries(writer, &mut entries, u64::MAX, &mut key)?;
    Ok(true)
}
