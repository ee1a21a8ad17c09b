//! A glossary, whose terms are found in texts.

ghost use Rattle.std.specs.Prelude.{◌≡◌, IfOk, map, OnErr, OnOk};
ghost use Rattle.uses.specs.Words.{after_put, empty_tree, HasUtf8Keys, keywords_in};
ghost use Rattle.uses.specs.Words.{State, state_code, term_of};

use cedar_words::leftmost_longest;
use cedarwood::{Cedar, CedarError};
use std::alloc::{AllocError, Global};
use std::marker::Model;

/// Terms, each with the number of what explains it. They are texts: so where one is in a text, it is a part of that text.
///
/// A contract sees the state of its dictionary.
#[derive(Drop)]
pub struct Glossary {
    terms: Cedar<Global>,
}

impl Model for Glossary {
    ghost Value = { State };

    ghost coded = { state_code };

    ghost view = { λ it. it.terms.state };

    ghost invariant = { λ it. HasUtf8Keys it.terms.state.tree };
}

impl Glossary {
    /// One without terms.
    ///
    /// # Errors
    /// `Memory` if an allocation was refused.
    pub fn new(alloc: Global) -> Result<Glossary, CedarError>
        //= A new glossary has no terms.
        ensures { IfOk result (λ it. it.tree ≡ empty_tree) }
    {
        let terms = Cedar::new(alloc)?;
        Ok(Glossary { terms })
    }

    /// Adds a term, or gives it another number.
    ///
    /// # Errors
    /// Those of an update: a term may be empty or have a byte 0, and memory or slots may run out.
    pub fn add(&mut self, term: &str, number: i32) -> Result<(), CedarError>
        //= A term that is added has its number, and after an error the glossary is as it was. [with none]
        ensures added { OnOk result (self.new ≡ after_put self.old term.now number) }
        ensures none { OnErr result (self.new ≡ self.old) }
    {
        self.terms.update(term, number)
    }

    /// The terms in a text, none of which overlap: for each the part of the text that it is, and its number.
    ///
    /// # Errors
    /// No memory for the result.
    pub fn terms_in<'t>(
        &self,
        alloc: Global,
        text: &'t str,
    ) -> Result<Vec<(&'t str, i32), Global>, AllocError>
        //= A glossary finds the keywords of a text, leftmost longest, each as the part of the text that it is.
        ensures { IfOk result (λ found. map (λ term. (term.0.now, term.1)) found.items ≡ map (term_of text.now) (keywords_in self.now.tree text.now)) }
    {
        let mut found = Vec::new(alloc);
        for keyword in leftmost_longest(&self.terms, text.as_bytes()) {
            let (start, len, number) = keyword;
            found.push((&text[start..start + len], number))?;
        }
        Ok(found)
    }
}
