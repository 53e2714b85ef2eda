//! All tables, each with the way from what a row asks to what is told.

use crate::tests::rows::halves;
use crate::tests::{atoms, configs, cuts, grammar, lists, tokens};
use std::alloc::Global;
use std::test::Fail;

// Tables by their names.
const TABLES: [(&str, &str); 14] = [
    ("texts", tokens::TEXTS),
    ("behind", tokens::BEHIND),
    ("programs", grammar::PROGRAMS),
    ("bodies", grammar::BODIES),
    ("depths", grammar::DEPTHS),
    ("comments", grammar::COMMENTS),
    ("lists", lists::ROWS),
    ("sums", lists::SUMS),
    ("codelets", cuts::ROWS),
    ("trees", atoms::TREES),
    ("takers", atoms::TAKERS),
    ("plans", atoms::PLANS),
    ("configs", configs::CHANGES),
    ("prefixes", configs::PREFIXES),
];

// What is told where a row of a table asks.
fn told(alloc: Global, table: &str, asked: &str) -> Result<String, Fail> {
    if table == "texts" {
        tokens::told(alloc, asked)
    } else if table == "behind" {
        tokens::told_many(alloc, asked)
    } else if table == "programs" {
        grammar::told(alloc, asked)
    } else if table == "bodies" {
        grammar::told_body(alloc, asked)
    } else if table == "depths" {
        grammar::told_nested(alloc, asked)
    } else if table == "comments" {
        grammar::told_comment(alloc, asked)
    } else if table == "lists" {
        lists::told(alloc, asked)
    } else if table == "sums" {
        lists::told_sums(alloc, asked)
    } else if table == "codelets" {
        cuts::told(alloc, asked)
    } else if table == "trees" {
        atoms::told(alloc, asked)
    } else if table == "takers" {
        atoms::told_takers(alloc, asked)
    } else if table == "plans" {
        atoms::told_plan(alloc, asked)
    } else if table == "configs" {
        configs::told(alloc, asked)
    } else {
        configs::told_prefixes(alloc, asked)
    }
}

#[test]
fn all_rows(rt: HostRuntime) -> Result<(), Fail> {
    for (table, rows) in TABLES {
        for row in rows.lines() {
            let (asked, wanted) = halves(row);
            let told = told(rt.alloc(), table, asked)?;
            assert_eq!(rt; told.as_str(), wanted, "for {asked} of {table}");
        }
    }
    Ok(())
}
