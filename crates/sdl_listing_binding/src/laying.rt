//! A listing taken apart: the rows of all sets, by number, and the rest of each set.
ghost use Rattle.std.specs.Prelude.{◌≡◌, ◌++◌, ◌∷◌, [], map, length, IfOk};
ghost use Rattle.sdl_listing_binding.specs.Answers.{rows_of};
ghost use Rattle.sdl_listing_binding.specs.Parts.{head_parts, listed_head, count_of};

use arrayvec::ArrayVec;
use sdl_listing_body::{ListedSet, Row};
use sdl_signal::{Name, SetId, Value};
use sdl_transition_behaviour::{Named, Save};
use std::alloc::{AllocError, Global};

/// What a file says of a set, with the number of its rows in place of its transitions.
#[derive(Drop)]
pub struct Head {
    pub set: SetId,
    pub uses: Vec<Named>,
    pub vars: ArrayVec<Value, 8>,
    pub states: ArrayVec<Name, 16>,
    pub saves: Vec<Save>,
    pub rows: usize,
}

/// Puts one more behind the others.
pub fn push_last<T: Drop>(list: &mut Vec<T>, one: T) -> Result<(), AllocError>
    ensures { IfOk result (λ _. list.new.items ≡ list.old.items ++ one ∷ []) }
{
    match list.push(one) {
        Ok(()) => Ok(()),
        Err(_) => Err(AllocError),
    }
}

/// Moves the rows behind the others.
fn push_all(list: &mut Vec<Row>, rows: Vec<Row>) -> Result<(), AllocError>
    ensures { IfOk result (λ _. list.new.items ≡ list.old.items ++ rows.items) }
{
    for row in rows {
        push_last(list, row)?;
    }
    Ok(())
}

/// Takes the transitions out of what a file says of a set, and moves them behind those of the sets before.
fn take_rows(listed: ListedSet, rows: &mut Vec<Row>) -> Result<Head, AllocError>
    ensures head { IfOk result (λ head. head_parts head ≡ listed_head listed) }
    ensures rows { IfOk result (λ _. rows.new.items ≡ rows.old.items ++ listed.start ∷ listed.rows.items) }
{
    let ListedSet {
        set,
        uses,
        vars,
        states,
        saves,
        start,
        rows: own,
    } = listed;
    let count = own.len();
    push_last(rows, start)?;
    push_all(rows, own)?;
    Ok(Head {
        set,
        uses,
        vars,
        states,
        saves,
        rows: count,
    })
}

/// The rows of all sets, and the rest of each.
pub fn lay_out(alloc: Global, listing: Vec<ListedSet>) -> Result<(Vec<Head>, Vec<Row>), AllocError>
    ensures heads { IfOk result (λ both. map head_parts both.0.items ≡ map listed_head listing.items) }
    ensures rows { IfOk result (λ both. both.1.items ≡ rows_of listing.items) }
    ensures count { IfOk result (λ both. length both.1.items ≡ count_of (map head_parts both.0.items)) }
{
    let mut heads = Vec::new(alloc);
    let mut rows = Vec::new(alloc);
    for listed in listing {
        let head = take_rows(listed, &mut rows)?;
        push_last(&mut heads, head)?;
    }
    Ok((heads, rows))
}
