use crate::queries::answer_by;
use crate::regions::{meet, seek, span};
use crate::reply::UNKNOWN;
use crate::told::Told;
use crate::words::Words;
use std::alloc::Global;
use ub_store::PageStore;
use ub_table::{Key, Schema};
use ub_tree::{Tree, TreeFault};

/// Puts what a line on a tree is answered.
pub fn ask<S: PageStore>(alloc: Global, tree: &mut Tree<S>, line: &str, told: &mut Told) {
    let mut words = Words::new(line);
    match words.word() {
        "insert" => insert(tree, &mut words, told),
        "fill" => told.answer(fill(tree, words.short()), "ok", UNKNOWN),
        "empty" => told.answer(empty(tree, words.short()), "ok", "no"),
        "remove" => told.answer(tree.remove(key_of(&mut words)), "yes", "no"),
        "check" => told.answer(tree.check().and(Ok(true)), "ok", "no"),
        "begin" => begin(tree, told),
        head @ ("SELECT" | "EXPLAIN" | "DELETE") => answer_by(alloc, tree, head, line, 0, told),
        head @ ("sweep" | "hand") => {
            let turns = words.short();
            answer_by(alloc, tree, head, words.rest, turns, told);
        }
        "seek" => seek(tree, words.number(), told),
        "span" => span(tree, &mut words, told),
        "walk" => meet(tree, 0, true, told),
        "meet" => meet(tree, words.short(), false, told),
        "count" => count(tree, told),
        "shape" => shape(tree.schema(), told),
        "trace" => trace(tree.trace(), told),
        _ => words.is_wrong = true,
    }
    if words.is_wrong {
        told.put(UNKNOWN);
    }
}

// The key of an address and a number, by the words for them.
fn key_of(words: &mut Words<'_>) -> Key {
    Key {
        z: words.number(),
        number: words.short(),
    }
}

// Lets the trace begin anew.
fn begin<S: PageStore>(tree: &mut Tree<S>, told: &mut Told) {
    tree.begin();
    told.put("ok");
}

// Puts in a row, by the words for its values: its number.
fn insert<S: PageStore>(tree: &mut Tree<S>, words: &mut Words<'_>, told: &mut Told) {
    let x = words.short();
    let given = if words.rest.is_empty() {
        put(tree, &[x], &[])
    } else {
        put(tree, &[x, words.short()], &[words.signed()])
    };
    match given {
        Ok(Some(number)) => told.number(number as u128),
        Ok(None) => told.put(UNKNOWN),
        Err(fault) => told.fault(fault),
    }
}

// Puts in a row of these values, where the table's rows have so many: its number.
fn put<S: PageStore>(
    tree: &mut Tree<S>,
    dims: &[u32],
    measures: &[i64],
) -> Result<Option<u32>, TreeFault> {
    let schema = tree.schema();
    if schema.dims() as usize != dims.len() || schema.measures() as usize != measures.len() {
        return Ok(None);
    }
    Ok(Some(tree.insert(dims, measures)?))
}

// Puts in so many rows, at 0, 1, .. of the first dimension, and at 0 of another one, and gives whether the table has such rows.
fn fill<S: PageStore>(tree: &mut Tree<S>, count: u32) -> Result<bool, TreeFault> {
    let dims = (tree.schema().dims() as usize).min(2);
    let measures = (tree.schema().measures() as usize).min(1);
    let mut is_well = true;
    for x in 0..count {
        let point = [x, 0];
        is_well &= put(tree, &point[..dims], &[0][..measures])?.is_some();
    }
    Ok(is_well)
}

// Takes so many rows out of a table of one dimension, the first one first, and gives whether each was there.
fn empty<S: PageStore>(tree: &mut Tree<S>, count: u32) -> Result<bool, TreeFault> {
    let mut is_well = true;
    for x in 0..count {
        let key = Key {
            z: x as u128,
            number: x.saturating_add(1),
        };
        is_well &= tree.remove(key)?;
    }
    Ok(is_well)
}

// How many rows and regions there are, and whether the tree has failed.
fn count<S: PageStore>(tree: &Tree<S>, told: &mut Told) {
    told.put("rows ");
    told.number(tree.rows() as u128);
    told.put(" regions ");
    told.number(tree.regions() as u128);
    if tree.has_failed() {
        told.put(" failed");
    }
}

// How many dimensions, measures and columns there are, and how many rows on a page.
fn shape(schema: &Schema, told: &mut Told) {
    told.put("dims ");
    told.number(schema.dims() as u128);
    told.put(" measures ");
    told.number(schema.measures() as u128);
    told.put(" columns ");
    told.number(schema.columns().len() as u128);
    told.put(" page-rows ");
    told.number(schema.page_rows() as u128);
}

// The pages of a trace.
fn trace(pages: &[u32], told: &mut Told) {
    if pages.is_empty() {
        told.put("none");
    }
    told.begin();
    for page in pages {
        told.part(" ");
        told.number(*page as u128);
    }
}
