//! CSV texts that are read, and CSV texts that are refused.

ghost use Rattle.vp_card.specs.Cards.{IsDeck};

mod many;
mod refused;
mod sessions;

use std::alloc::Global;
use std::test::*;
use vp_csv::Sessions;

/// The names and logs of the sessions of a text, each name with a line feed, or `refused` and the record.
pub(crate) fn told(alloc: Global, text: &[u8], deck: u8) -> Result<Vec<u8>, Fail>
    requires { IsDeck deck }
{
    let sessions = Sessions::read(alloc, text, deck).ok().ok_or("sessions")?;
    let mut told = Vec::new(alloc);
    for place in 0..sessions.count() {
        let name = sessions.name(place);
        told.extend_from_slice(name.text()).ok().ok_or("memory")?;
        told.push(b'\n').ok().ok_or("memory")?;
        told.extend_from_slice(sessions.log(place))
            .ok()
            .ok_or("memory")?;
    }
    Ok(told)
}
