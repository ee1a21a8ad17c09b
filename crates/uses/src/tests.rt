use crate::autocomplete::complete;
use crate::callers::{Lexicon, slots, with_one};
use crate::counted::search;
use crate::counter::count;
use crate::filter::{has_keyword, keywords_of};
use crate::glossary::Glossary;
use crate::opener::value_in;
use crate::pages::{page_behind, page_from};
use crate::saver::keep;
use crate::service::publish;
use crate::tokenizer::{Tokenizer, pieces_of};
use crate::typing::suggest;
use cedarwood::{
    Cedar, CedarBuilder, CedarError, CedarPersistenceError, DefaultLayout, Trie, Watched,
};
use std::alloc::Global;
use std::cell::Cell;
use std::process::Abort;
use std::test::Fail;
use test_support::{FakeFiles, FilePlan, FileUse, Refusing};

fn expect_number(rt: &impl Abort, words: &Cedar<Global>, key: &[u8], wanted: Option<(i32, usize)>) {
    assert!(rt; search(words, key) == wanted);
}

fn expect_keyword(rt: &impl Abort, words: &Cedar<Global>, text: &[u8], is_there: bool) {
    assert!(rt; has_keyword(words, text) == is_there);
}

fn expect_first(
    rt: &impl Abort,
    alloc: Global,
    words: &Cedar<Global>,
    wanted: (&[u8], i32),
) -> Result<(), Fail> {
    let found = complete(words, alloc, "ne", 1)?;
    expect_page(rt, &found, wanted);
    Ok(())
}

fn expect_page(rt: &impl Abort, page: &[(Vec<u8>, i32)], wanted: (&[u8], i32)) {
    assert!(rt; page.len() == 1);
    for (key, value) in page {
        assert!(rt; key.as_slice() == wanted.0 && *value == wanted.1);
    }
}

fn expect_pages(rt: &impl Abort, alloc: Global, words: &Cedar<Global>) -> Result<(), Fail> {
    let first = page_from(words, alloc, b"a", 1)?.ok_or("ascending labels")?;
    expect_page(rt, &first, (b"net", 2));
    let next = page_behind(words, alloc, b"net", 1)?.ok_or("ascending labels")?;
    expect_page(rt, &next, (b"nets", 1));
    Ok(())
}

fn expect_counted(rt: &impl Abort, alloc: Global) -> Result<(), Fail> {
    let counts = count(alloc, &["net", "ten", "net", "nets"])?;
    expect_number(rt, &counts, b"net", Some((2, 3)));
    expect_number(rt, &counts, b"ne", None);
    expect_keyword(rt, &counts, b"attention", true);
    expect_keyword(rt, &counts, b"a n.e.t. of nests", false);
    expect_first(rt, alloc, &counts, (b"net", 2))?;
    expect_pages(rt, alloc, &counts)
}

fn expect_found(rt: &impl Abort, alloc: Global, file: &[u8]) -> Result<(), Fail> {
    assert!(rt; value_in(alloc, file, b"net")? == Some(1));
    assert!(rt; value_in(alloc, file, b"ne")?.is_none());
    Ok(())
}

fn expect_one(rt: &impl Abort, alloc: Global) -> Result<(), Fail> {
    let single = with_one(alloc, "a")?;
    expect_number(rt, &single, b"a", Some((1, 1)));
    Ok(())
}

fn expect_none(rt: &impl Abort, alloc: Global) -> Result<(), Fail> {
    let lexicon = Lexicon::<512, Global>::new(alloc)?;
    assert!(rt; !lexicon.has("a"));
    assert!(rt; slots(&lexicon.words) == 256);
    Ok(())
}

#[test]
fn words(rt: HostRuntime) -> Result<(), Fail> {
    expect_counted(&rt, rt.alloc())?;
    expect_one(&rt, rt.alloc())?;
    expect_none(&rt, rt.alloc())
}

fn save_bytes(alloc: Global, words: &Cedar<Global>) -> Result<Vec<u8>, CedarPersistenceError> {
    let mut writer = Watched::new(Vec::new(alloc));
    words.save_to_writer(&mut writer)?;
    Ok(writer.into_inner())
}

fn expect_kept_file(rt: &impl Abort, words: &Cedar<Global>, file: &[u8]) {
    let uses = Cell::new(FileUse::NONE);
    let files = FakeFiles::new(file, FilePlan::GOOD, &uses);
    assert!(rt; matches!(keep(words, &files, "words.cedar"), Ok(Some(_))));
    let uses = uses.get();
    assert!(rt; uses.as_expected && uses.written == file.len());
    assert!(rt; uses.syncs == 1 && uses.moves == 1 && uses.names == 1);
}

fn load_bytes(alloc: Global, file: &[u8]) -> Result<Tokenizer, CedarPersistenceError> {
    Tokenizer::load(alloc, &mut Watched::new(file))
}

fn expect_tokens(rt: &impl Abort, alloc: Global, tokenizer: &Tokenizer) -> Result<(), Fail> {
    let tokens = tokenizer.cut(alloc, "a net")?;
    let wanted = [(0, 1, None), (1, 1, None), (2, 3, Some(1))];
    assert!(rt; tokens.as_slice() == wanted.as_slice());
    Ok(())
}

// "nets" costs 1, and "net" 1 and a byte of no word 3 more.
fn expect_cheap_tokens(rt: &impl Abort, alloc: Global, tokenizer: &Tokenizer) -> Result<(), Fail> {
    let tokens = tokenizer.cut_by_cost(alloc, "netsx", 3)?;
    let wanted = [(0, 4, Some(1)), (4, 1, None)];
    assert!(rt; tokens.as_slice() == wanted.as_slice());
    Ok(())
}

fn expect_keywords(rt: &impl Abort, alloc: Global, words: &Cedar<Global>) -> Result<(), Fail> {
    let found = keywords_of(alloc, words, "a netsnet")?;
    assert!(rt; found.as_slice() == [(2, 4, 1), (6, 3, 1)].as_slice());
    Ok(())
}

fn expect_pieces(rt: &impl Abort, alloc: Global, tokenizer: &Tokenizer) -> Result<(), Fail> {
    let pieces = pieces_of(&tokenizer.words, alloc, b"a nets")?;
    assert!(rt; pieces.len() == 3);
    assert!(rt; pieces[2] == b"nets".as_slice());
    Ok(())
}

// The text has a character of three bytes before each term, and one behind them that no term has.
fn expect_terms(rt: &impl Abort, alloc: Global, glossary: &Glossary) -> Result<(), Fail> {
    let found = glossary.terms_in(alloc, "“网球拍”、网")?;
    assert!(rt; found.len() == 1);
    assert!(rt; found[0].0 == "网球拍" && found[0].1 == 2);
    Ok(())
}

fn expect_no_term(rt: &impl Abort, glossary: &mut Glossary) {
    assert!(rt; glossary.add("", 3) == Err(CedarError::EmptyKey));
}

#[test]
fn terms(rt: HostRuntime) -> Result<(), Fail> {
    let mut glossary = Glossary::new(rt.alloc())?;
    glossary.add("网球", 1)?;
    glossary.add("网球拍", 2)?;
    expect_no_term(&rt, &mut glossary);
    expect_terms(&rt, rt.alloc(), &glossary)
}

#[test]
fn tokens(rt: HostRuntime) -> Result<(), Fail> {
    let counts = count(rt.alloc(), &["net", "nets"])?;
    let file = save_bytes(rt.alloc(), &counts)?;
    expect_kept_file(&rt, &counts, &file);
    expect_found(&rt, rt.alloc(), &file)?;
    let tokenizer = load_bytes(rt.alloc(), &file)?;
    expect_tokens(&rt, rt.alloc(), &tokenizer)?;
    expect_cheap_tokens(&rt, rt.alloc(), &tokenizer)?;
    expect_keywords(&rt, rt.alloc(), &tokenizer.words)?;
    expect_pieces(&rt, rt.alloc(), &tokenizer)
}

fn expect_suggested(
    rt: &impl Abort,
    words: &Cedar<Global>,
    alloc: Global,
    typed: &str,
    wanted: &[u8],
) -> Result<(), Fail> {
    let found = suggest(words, alloc, typed, 1)?;
    assert!(rt; found.len() == 1 && found[0].1.as_slice() == wanted);
    Ok(())
}

// The best word that begins so, or that begins with what is one edit away; or none.
#[test]
fn typed_words(rt: HostRuntime) -> Result<(), Fail> {
    let mut words = Cedar::new(rt.alloc())?;
    words.build(&[("nest", 3), ("net", 7), ("ten", 9)])?;
    expect_suggested(&rt, &words, rt.alloc(), "ne", b"net")?;
    expect_suggested(&rt, &words, rt.alloc(), "nast", b"nest")?;
    assert!(rt; suggest(&words, rt.alloc(), "xyzzy", 1)?.is_empty());
    Ok(())
}

type Live<'a> = Trie<DefaultLayout, 512, &'a Refusing<Global>>;

fn expect_len(rt: &impl Abort, live: &Live<'_>, keys: usize) {
    assert!(rt; live.len() == keys);
}

fn is_published(live: &mut Live<'_>, pairs: &[(&str, i32)]) -> bool {
    publish(live, pairs).is_ok()
}

// Each allocation is refused in turn, until there are no more: until then the dictionary keeps what it had.
fn expect_kept(rt: &impl Abort, memory: &Refusing<Global>, live: &mut Live<'_>) {
    for refused in 0..8 {
        memory.refuse(refused + 1, refused + 1);
        if is_published(live, &[("ten", 2), ("network", 3)]) {
            break;
        }
        expect_len(rt, live, 1);
    }
    memory.refuse_none();
    expect_len(rt, live, 3);
}

fn expect_fault(rt: &impl Abort, live: &mut Live<'_>) {
    assert!(rt; publish(live, &[("a", 1), ("", 2)]) == Err(CedarError::EmptyKey));
    assert!(rt; live.exact_match_search("a").is_none());
    expect_len(rt, live, 3);
}

// If any allocation is refused, or a pair has a fault, the dictionary keeps what it had.
#[test]
fn updates(rt: HostRuntime) -> Result<(), Fail> {
    let memory = Refusing::new(rt.alloc());
    let mut live = Live::with(&memory, CedarBuilder::new())?;
    publish(&mut live, &[("net", 1)])?;
    expect_kept(&rt, &memory, &mut live);
    expect_fault(&rt, &mut live);
    Ok(())
}
