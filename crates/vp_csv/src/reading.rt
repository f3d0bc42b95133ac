//! The records of all sessions, one after another.

ghost use Rattle.std.specs.Prelude.{◌≡◌, ◌<◌, ◌++◌, ◌∷◌, ◌&&◌, [], true, None, Some, IfOk, IfErr, OnOk, is_some, length, map, nat_lt};
ghost use Rattle.csv.specs.Records.{fields_of};
ghost use Rattle.vp_csv.specs.Kept.{closed, game_line, kept_in, names_kept, opened, updated, with_text_at};
ghost use Rattle.vp_csv.specs.Kept.{IsBehindHeader, IsRefusedHeader};
ghost use Rattle.vp_csv.specs.Records.{records_in};
ghost use Rattle.vp_csv.specs.Rules.{IsStop, break_behind, first_break, game_in, is_header, keeps_rule, start_in};
ghost use Rattle.vp_csv.specs.Sessions.{behind_first};

use crate::CsvStop;
use crate::kept::{Kept, append, close_all, place_of};
use crate::records::Records;
use crate::row::{Row, is_header, row_of};
use csv::ByteRecord;
use std::alloc::{AllocError, Global};
use vp_pay::Name;

/// Keeps a record of the session at a place, and tells whether it is a game.
fn take_game(
    sessions: &mut Vec<Kept>,
    place: usize,
    row: &Row,
    deck: u8,
) -> Result<bool, AllocError>
    requires { place < length sessions.old.items }
    ensures game { IfOk result (λ kept. kept ≡ is_some (game_in deck row.now)) }
    ensures keeps { IfOk result (λ kept. kept ≡ true → sessions.new.items
        ≡ with_text_at place (game_line (game_in deck row.now)) sessions.old.items) }
{
    let Some(event) = row.game(deck) else {
        return Ok(false);
    };
    append(sessions, place, &event)?;
    Ok(true)
}

/// Keeps a record of a session that is not known, and tells whether it opens one.
fn take_opening(
    alloc: Global,
    sessions: &mut Vec<Kept>,
    name: Name,
    row: &Row,
) -> Result<bool, AllocError>
    ensures opens { IfOk result
        (λ kept. kept ≡ (nat_lt (length sessions.old.items) 1000 && is_some (start_in row.now))) }
    ensures keeps { IfOk result (λ kept. kept ≡ true → sessions.new.items
        ≡ sessions.old.items ++ opened name (start_in row.now) ∷ []) }
{
    if sessions.len() >= 1000 {
        return Ok(false);
    }
    let Some(start) = row.start() else {
        return Ok(false);
    };
    sessions.push(Kept::open(alloc, name, start)?)?;
    Ok(true)
}

/// Keeps a record behind so many, and tells whether it keeps its rule.
fn take(
    alloc: Global,
    sessions: &mut Vec<Kept>,
    count: u32,
    fields: &ByteRecord,
    deck: u8,
) -> Result<bool, AllocError>
    ensures may { IfOk result (λ kept. kept
        ≡ keeps_rule deck count (names_kept sessions.old.items) (fields_of fields.now)) }
    ensures room { IfOk result (λ kept. kept ≡ true → count < 400000) }
    ensures keeps { IfOk result (λ kept. kept ≡ true → sessions.new.items
        ≡ updated deck (fields_of fields.now) sessions.old.items) }
{
    if count >= 400000 {
        return Ok(false);
    }
    let Some(row) = row_of(fields) else {
        return Ok(false);
    };
    let Some(name) = Name::read(row.session()) else {
        return Ok(false);
    };
    match place_of(sessions, name.text()) {
        Some(place) => take_game(sessions, place, &row, deck),
        None => take_opening(alloc, sessions, name, &row),
    }
}

/// Takes the header, which is to be the first record.
fn take_header(records: &mut Records, fields: &mut ByteRecord) -> Result<(), CsvStop>
    ensures taken { OnOk result (IsBehindHeader records.old records.new) }
    ensures refused { IfErr result (λ e. IsRefusedHeader e records.old) }
{
    let Ok(found) = records.next(fields) else {
        return Err(CsvStop::NoMemory);
    };
    if !found || !is_header(fields) {
        return Err(CsvStop::Record { place: 1 });
    }
    Ok(())
}

/// The sessions of the records behind the header.
fn read_behind(
    alloc: Global,
    records: &mut Records,
    fields: &mut ByteRecord,
    deck: u8,
) -> Result<Vec<Kept>, CsvStop>
    ensures read { IfOk result (λ v. (break_behind deck [] records.old ≡ None)
        × (v.items ≡ kept_in deck records.old)) }
    ensures refused { IfErr result (λ e. IsStop e (break_behind deck [] records.old)) }
{
    let mut sessions = Vec::new(alloc);
    let mut count: u32 = 0;
    'records: loop {
        let Ok(found) = records.next(fields) else {
            return Err(CsvStop::NoMemory);
        };
        if !found {
            return Ok(sessions);
        }
        let Ok(kept) = take(alloc, &mut sessions, count, fields, deck) else {
            return Err(CsvStop::NoMemory);
        };
        if !kept {
            return Err(CsvStop::Record { place: count + 2 });
        }
        count += 1;
    }
}

/// The sessions of a text, their logs not being ended.
#[tactic(auto, unfolding(crate::specs::Rules::first_break))]
pub(crate) fn read_kept(alloc: Global, bytes: &[u8], deck: u8) -> Result<Vec<Kept>, CsvStop>
    ensures read { IfOk result (λ v. (first_break deck (records_in bytes.now) ≡ None)
        × (v.items ≡ kept_in deck (behind_first (records_in bytes.now)))) }
    ensures refused { IfErr result (λ e. IsStop e (first_break deck (records_in bytes.now))) }
{
    let mut records = Records::new(alloc, bytes);
    let mut fields = ByteRecord::new(alloc);
    take_header(&mut records, &mut fields)?;
    read_behind(alloc, &mut records, &mut fields, deck)
}

/// Ends the logs.
pub(crate) fn close(sessions: &mut Vec<Kept>) -> Result<(), AllocError>
    ensures { OnOk result (sessions.new.items ≡ map closed sessions.old.items) }
{
    close_all(sessions)
}
