//! Callers of the dictionary, as a user would write them. docs/CALLING.md quotes this text.
#![tactic(auto)]

mod autocomplete;
mod callers;
mod counted;
mod counter;
mod filter;
mod glossary;
mod opener;
mod pages;
mod saver;
mod service;
#[cfg(test)]
mod tests;
mod tokenizer;
mod typing;
