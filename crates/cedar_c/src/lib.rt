//! The dictionary for C, and so for C++ and Python: `c/include/cedar.h` declares the exports, and says what their callers owe.
//!
//! C has a [`handle::Handle`]: a pointer to a dictionary of either layout on the C library's heap, or none. Each call makes the
//! dictionary's own call where it is; one that opens or closes a handle alone takes a dictionary out of it or puts one in. Calls that only
//! read take the same words as a [`reading::Reading`].
#![tactic(auto)]

mod any_scanner;
mod below;
mod best;
mod builds;
mod calls;
mod cuts;
mod entries;
mod erasures;
mod figures;
mod files;
mod grouped;
mod handle;
mod held;
mod held_scanner;
mod keys;
mod keywords;
mod loose;
mod matching;
mod models;
mod near_texts;
mod neighbours;
mod pages;
mod pairs;
mod planned;
mod reading;
mod records;
mod room;
mod save;
mod scanned_cedar;
mod scanner_handle;
mod scanner_reading;
mod scanners;
mod scans;
mod searches;
mod shown;
mod shown_scanner;
mod status;
mod walks;
