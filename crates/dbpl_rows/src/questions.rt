//! What each kind of row asks.
use crate::answer::Answer;
use crate::failure::Failure;
use crate::parts::Parts;
use crate::{commands, forms, keys, paths, random, relations, stores, types, values};
use std::alloc::Global;

/// The answer to a row of this kind about this input.
pub(crate) fn answer_to(alloc: Global, kind: &str, input: &str) -> Result<Answer, Failure> {
    let parts = Parts::read(alloc, input)?;
    match kind {
        "type" => types::is_type(alloc, &parts),
        "same" => types::are_same(alloc, &parts),
        "start" => types::start(alloc, &parts),
        "value" => values::is_value(alloc, &parts),
        "size" => values::size(alloc, &parts),
        "equal" => values::are_equal(alloc, &parts),
        "random" => random::come_back(alloc, &parts),
        _ => about_keys(alloc, kind, &parts),
    }
}

fn about_keys(alloc: Global, kind: &str, parts: &Parts) -> Result<Answer, Failure> {
    match kind {
        "key" => keys::bytes(alloc, parts),
        "order" => keys::order(alloc, parts),
        "order to key" => keys::order_to(alloc, parts),
        "at" => paths::at(alloc, parts),
        "put" => paths::put(alloc, parts),
        "insert" => relations::inserted(alloc, parts),
        "remove" => relations::removed(alloc, parts),
        "replace" => relations::replaced(alloc, parts),
        "find" => relations::found(alloc, parts),
        "assign" => relations::assigned(alloc, parts),
        "select" => relations::selected(alloc, parts),
        _ => about_whole(alloc, kind, parts),
    }
}

fn about_whole(alloc: Global, kind: &str, parts: &Parts) -> Result<Answer, Failure> {
    match kind {
        "database" => stores::is_database(alloc, parts),
        "log" => stores::is_log(alloc, parts),
        "records" => stores::records(alloc, parts),
        "unit" => forms::is_unit(alloc, parts),
        "form" => forms::is_form(alloc, parts),
        "relation" => forms::relation(alloc, parts),
        "insertions" => forms::insertions(alloc, parts),
        "body" => forms::body(alloc, parts),
        "command" => commands::command(alloc, parts),
        "runs" => commands::runs(alloc, parts),
        "runs over" => commands::runs_over(alloc, parts),
        _ => Err(Failure::Unreadable),
    }
}
