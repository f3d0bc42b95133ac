// Laws of `sessions`.
ghost use Rattle.vp_sessions.specs.Sessions.{SessionsInputsAreRead};
ghost use Rattle.vp_sessions.specs.SessionsTell.{SessionsAreApart, SessionsAreReplayed};

/// What `sessions` takes for its input: a valid pay table stands at its front, and all bytes behind the line feed of its
/// last line are the CSV text. Every other input is refused, exactly at the refused line of a pay table.
#[tactic(auto, using(crate::proofs::SessionInputs::inputs_read))]
pub fn sessions_inputs_are_read()
    ensures { SessionsInputsAreRead }
{}

/// The answer of `sessions` to each pay table and CSV text that it takes. Where each record keeps its rule, it is the lines
/// of each session, in the order of the records that open them, and then how many sessions there are and how many are
/// unlawful; the lines of a session are what `replay` answers to the pay table and its log alone, and it is unlawful where
/// that is a finding. Else it names the first record that breaks its rule.
#[tactic(auto, using(crate::proofs::SessionsTell::sessions_replayed))]
pub fn sessions_are_replayed()
    ensures { SessionsAreReplayed }
{}

/// No session changes what is said of another: each session has its lines in the answer of `sessions`, and these depend on
/// the pay table and on its own records alone, whatever the other sessions' records are and wherever they stand.
#[tactic(auto, using(crate::proofs::SessionsTell::sessions_apart))]
pub fn sessions_do_not_mix()
    ensures { SessionsAreApart }
{}
