//! The constants of a package.

ghost use Rattle.std.specs.Prelude.{◌≡◌, ℕ, ℤ, List, ◌<◌, length, unwrap_or, IfOk, OnOk, ◌↔◌};
ghost use Rattle.std.specs.BTreeMap.{get_by_text};
ghost use Rattle.const_eval.specs.Machine.{state_of};
ghost use Rattle.const_eval.specs.Names.{names_of};
ghost use Rattle.const_eval.specs.Constants.{IsConstant, Gives};
ghost use Rattle.const_eval.specs.Progress.{run_value, news_from, AreCounts, IsKnown, Attempts};
ghost use Rattle.const_eval.specs.Progress.{Passes};

use crate::machine::Machine;
use crate::names::{Names, Values};
use plain_data::{Mem, Seq, Txt};
use std::alloc::Global;
use std::collections::BTreeMap;

/// A name that a constant declaration declares (Go specification, "Constant declarations").
#[derive(Drop)]
pub struct ConstFact {
    /// The name.
    pub name: Txt,
    /// The texts of the tokens, in their order, of the expression for the name's place: where the
    /// spec is empty, that of the spec before it, and none where there isn't one.
    pub value: Seq<Txt>,
    /// The number of the spec in its group, from 0, which `iota` stands for.
    pub iota: u32,
}

/// What the constants of a package are worth.
#[derive(Drop)]
pub struct Constants {
    pub(crate) values: Values,
}

/// How many constants have each name.
type Counts = BTreeMap<String, usize>;

/// The value of the expression that the texts of these tokens are, or `None` where there isn't one.
fn run_value(alloc: Global, run: &[Txt], names: &Names) -> Mem<Option<i128>>
    ensures { IfOk result (λ found. found ≡ run_value (names_of names.now) run.now) }
{
    let mut machine = Machine::new(alloc);
    for text in run {
        if !machine.take(text.as_str().as_bytes(), names)? {
            return Ok(None);
        }
    }
    match machine.finish() {
        Some(value) => Ok(Some(value.number)),
        None => Ok(None),
    }
}

/// Counts the constants of each name.
fn counts_of(alloc: Global, specs: &[ConstFact]) -> Mem<Counts>
    ensures { IfOk result (AreCounts specs.now) }
{
    let mut counts = BTreeMap::new(alloc);
    for fact in specs {
        let name = String::from_str(alloc, fact.name.as_str())?;
        *counts.entry(name)?.or_insert(0) += 1;
    }
    Ok(counts)
}

/// The value that a constant has now, where it is the only one of its name and none is known yet.
fn news_of(alloc: Global, fact: &ConstFact, counts: &Counts, values: &Values) -> Mem<Option<i128>>
    ensures { IfOk result (λ found. found
        ≡ news_from (unwrap_or (get_by_text counts.now fact.now.name) 0)
        (get_by_text values.now) fact.now) }
{
    let name = fact.name.as_str();
    if counts.get(name).copied().unwrap_or(0) != 1 {
        return Ok(None);
    }
    if values.contains_key(name) {
        return Ok(None);
    }
    let names = Names {
        values,
        iota: Some(fact.iota),
    };
    run_value(alloc, fact.value.as_slice(), &names)
}

/// Looks for the value of the constant at a place; whether one was found.
fn learn(
    alloc: Global,
    facts: &[ConstFact],
    place: usize,
    counts: &Counts,
    values: &mut Values,
) -> Mem<bool>
    requires within { place < length facts.now }
    requires counted { AreCounts facts.now counts.now }
    requires known { IsKnown facts.now (get_by_text values.old) }
    ensures known { OnOk result (IsKnown facts.now (get_by_text values.new)) }
    ensures attempt { IfOk result (Attempts facts.now place values.old values.new) }
{
    let fact = &facts[place];
    match news_of(alloc, fact, counts, values)? {
        Some(number) => {
            let name = String::from_str(alloc, fact.name.as_str())?;
            values.insert(name, number)?;
            Ok(true)
        }
        None => Ok(false),
    }
}

/// Looks for the value of each constant once; whether one was found.
fn learn_all(alloc: Global, facts: &[ConstFact], counts: &Counts, values: &mut Values) -> Mem<bool>
    requires counted { AreCounts facts.now counts.now }
    requires known { IsKnown facts.now (get_by_text values.old) }
    ensures known { OnOk result (IsKnown facts.now (get_by_text values.new)) }
    ensures pass { IfOk result (Passes facts.now (length facts.now) values.old values.new) }
{
    let mut changed = false;
    for place in 0..facts.len() {
        let found = learn(alloc, facts, place, counts, values)?;
        changed |= found;
    }
    Ok(changed)
}

/// A step of the search for an order in which each constant stands after those that it names.
#[derive(Clone, Copy)]
enum Task {
    /// Those that the constant at a place names come first.
    Enter(usize),
    /// It is the turn of the constant at a place.
    Leave(usize),
}

/// A place of each name among the constants.
fn places_of(alloc: Global, facts: &[ConstFact]) -> Mem<BTreeMap<String, usize>> {
    let mut places = BTreeMap::new(alloc);
    for (place, fact) in facts.iter().enumerate() {
        places.insert(String::from_str(alloc, fact.name.as_str())?, place)?;
    }
    Ok(places)
}

/// Adds the constants that a run names to the tasks.
fn enter_named(
    run: &[Txt],
    places: &BTreeMap<String, usize>,
    entered: &[bool],
    tasks: &mut Vec<Task>,
) -> Mem<()> {
    for text in run {
        // In the run of a constant this is the number of its specification, and no constant.
        if text.as_str() == "iota" {
            continue;
        }
        if let Some(place) = places.get(text.as_str()).copied()
            && entered.get(place) == Some(&false)
        {
            tasks.push(Task::Enter(place))?;
        }
    }
    Ok(())
}

/// Looks for the value of each constant, in an order in which it stands after those that it names
/// where there is one.
fn learn_in_order(
    alloc: Global,
    facts: &[ConstFact],
    counts: &Counts,
    values: &mut Values,
) -> Mem<()>
    requires counted { AreCounts facts.now counts.now }
    requires known { IsKnown facts.now (get_by_text values.old) }
    ensures { OnOk result (IsKnown facts.now (get_by_text values.new)) }
{
    let places = places_of(alloc, facts)?;
    let mut entered = vec![in alloc; false; facts.len()]?;
    let mut tasks = Vec::new(alloc);
    for place in 0..facts.len() {
        tasks.push(Task::Enter(place))?;
    }
    for _ in 0..u64::MAX {
        let Some(task) = tasks.pop() else {
            break;
        };
        match task {
            Task::Enter(place) if place < facts.len() && place < entered.len() => {
                if !entered[place] {
                    entered[place] = true;
                    tasks.push(Task::Leave(place))?;
                    let run = facts[place].value.as_slice();
                    enter_named(run, &places, entered.as_slice(), &mut tasks)?;
                }
            }
            Task::Leave(place) if place < facts.len() => {
                let _ = learn(alloc, facts, place, counts, values)?;
            }
            _ => {}
        }
    }
    Ok(())
}

impl Constants {
    /// What the constants of a package are worth. Each is evaluated once after those that it
    /// names, and those that then have no value once more.
    ///
    /// # Errors
    ///
    /// `NoMemory` where an allocation is refused.
    pub fn make(alloc: Global, specs: &[ConstFact]) -> Mem<Constants>
        ensures { IfOk result (λ constants. (name : List ℕ) (number : ℤ)
            → Gives constants name number ↔ IsConstant specs.now name number) }
    {
        let counts = counts_of(alloc, specs)?;
        let mut values = BTreeMap::new(alloc);
        learn_in_order(alloc, specs, &counts, &mut values)?;
        while learn_all(alloc, specs, &counts, &mut values)? {}
        Ok(Constants { values })
    }
}
