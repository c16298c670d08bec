// The request that the words of a command make.
ghost use Rattle.std.specs.Prelude.{◌≡◌, ℕ, List, IfSome, IfNone};
ghost use Rattle.std.specs.Str.{IsUtf8};
ghost use Rattle.dbpl_words.specs.Asked.{Asked, Asks, AsksAlone, AsksToCreate, AsksToRun, asked_of};

use crate::Request;
use dbpl_base::Name;
use std::str;

/// What the words ask for, or nothing where they have no reading.
pub fn request(words: &[Name]) -> Option<Request<'_>>
    ensures reading { IfSome result (λ request. Asks words.now (asked_of request)) }
    ensures no_reading { IfNone result ((asked : Asked) → Asks words.now asked → ⊥) }
{
    if let Some(file) = alone(words) {
        return Some(Request::RunAlone(file));
    }
    if let Some(store) = created(words) {
        return Some(Request::Create(store));
    }
    run(words)
}

/// The file that the words ask to run alone, or nothing where they ask for no such run.
fn alone(words: &[Name]) -> Option<&str>
    ensures reading { IfSome result (λ file. AsksAlone words.now file.now) }
    ensures no_reading { IfNone result ((file : List ℕ) → AsksAlone words.now file → ⊥) }
{
    let [mode, store, file] = words else {
        return None;
    };
    if !mode.is(b"run") || !store.is(b"-") {
        return None;
    }
    text(file)
}

/// The store that the words ask to create, or nothing where they ask for none.
fn created(words: &[Name]) -> Option<&str>
    ensures reading { IfSome result (λ store. AsksToCreate words.now store.now) }
    ensures no_reading { IfNone result ((store : List ℕ) → AsksToCreate words.now store → ⊥) }
{
    let [mode, store] = words else {
        return None;
    };
    if !mode.is(b"create") {
        return None;
    }
    text(store)
}

/// The run over a store that the words ask for, or nothing where they ask for none.
fn run(words: &[Name]) -> Option<Request<'_>>
    ensures reading { IfSome result (λ request. Asks words.now (asked_of request)) }
    ensures no_reading { IfNone result ((store database program : List ℕ) → AsksToRun words.now store database program → ⊥) }
{
    let [mode, store, data, program] = words else {
        return None;
    };
    if !mode.is(b"run") {
        return None;
    }
    Some(Request::Run {
        store: text(store)?,
        data: text(data)?,
        program: text(program)?,
    })
}

/// The word as a text, or nothing where it isn't UTF-8.
fn text(word: &Name) -> Option<&str>
    ensures text { IfSome result (λ text. (text.now ≡ word.now) × IsUtf8 word.now) }
    ensures no_text { IfNone result (IsUtf8 word.now → ⊥) }
{
    match str::from_utf8(word.as_bytes()) {
        Ok(text) => Some(text),
        Err(_) => None,
    }
}
