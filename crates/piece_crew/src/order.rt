//! The outputs of all workers, put in the order of their jobs.

ghost use Rattle.std.specs.Prelude.{◌≡◌, ℕ, ◌<◌, ◌≤◌, Some, Ok, None, [], ◌∷◌, ◌++◌, map, length, replicate, All, IfOk, OnOk, IsSome, vec_len};
ghost use Rattle.std.specs.List.{fold};
ghost use Rattle.piece_crew.specs.Bundles.{place_all, placed};

use crate::claims::ClaimSeat;
use plain_data::{Mem, Seq};
use std::alloc::Global;

/// An output, and the number of its job.
#[derive(Drop)]
pub(crate) struct Piece<O> {
    pub(crate) number: u32,
    pub(crate) output: O,
}

/// What a worker brings back: its seat after its last claim, and its outputs.
#[derive(Drop)]
pub(crate) struct Bundle<O> {
    pub(crate) seat: ClaimSeat,
    pub(crate) pieces: Vec<Piece<O>>,
}

// What all workers bring back, unless memory was wanting to one.
pub(crate) fn all_done<O: Drop>(alloc: Global, results: Vec<Mem<Bundle<O>>>) -> Mem<Vec<Bundle<O>>>
    ensures { IfOk result (λ bundles. map Ok bundles.items ≡ results.items) }
{
    let mut bundles = Vec::with_capacity(alloc, results.len())?;
    for result in results {
        bundles.push(result?)?;
    }
    Ok(bundles)
}

// This many empty places.
pub(crate) fn empty_places<O: Drop>(alloc: Global, count: u32) -> Mem<Vec<Option<O>>>
    ensures { IfOk result (λ places. places.items ≡ replicate count None) }
{
    let mut places = Vec::with_capacity(alloc, count as usize)?;
    for _ in 0..count {
        places.push(None)?;
    }
    Ok(places)
}

// Puts each output in the place with its job's number.
fn place<O: Drop>(pieces: Vec<Piece<O>>, places: &mut Vec<Option<O>>)
    requires { All (λ piece. piece.number < vec_len places.old) pieces.items }
    ensures places { places.new.items ≡ fold placed places.old.items pieces.items }
    ensures len { vec_len places.new ≡ vec_len places.old }
{
    for Piece { number, output } in pieces {
        places[number as usize] = Some(output);
    }
}

// Takes the seats out, and puts each output in its place.
pub(crate) fn take_apart<O: Drop>(
    bundles: Vec<Bundle<O>>,
    seats: &mut Vec<ClaimSeat>,
    places: &mut Vec<Option<O>>,
) -> Mem<()>
    requires { All (λ bundle. All (λ piece. piece.number < vec_len places.old) bundle.pieces.items)
        bundles.items }
    ensures seats { OnOk result
        (seats.new.items ≡ seats.old.items ++ map (λ bundle. bundle.seat) bundles.items) }
    ensures places { OnOk result
        (places.new.items ≡ fold place_all places.old.items bundles.items) }
{
    for Bundle { seat, pieces } in bundles {
        place(pieces, places);
        seats.push(seat)?;
    }
    Ok(())
}

// The outputs of places that are all taken.
pub(crate) fn outputs_of<O: Drop>(alloc: Global, places: Vec<Option<O>>) -> Mem<Seq<O>>
    requires { All IsSome places.items }
    ensures { IfOk result (λ outputs. map Some outputs ≡ places.items) }
{
    let mut outputs = Vec::with_capacity(alloc, places.len())?;
    for place in places {
        let Some(output) = place else { unreachable!() };
        outputs.push(output)?;
    }
    Ok(Seq::from_vec(outputs))
}
