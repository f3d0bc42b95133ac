//! The lines of a summary.

use std::test::*;
use vp_io::MemSink;
use vp_replay::{Summary, put_summary};

#[test]
fn a_summary_has_six_lines(rt: HostRuntime) -> Result<(), Fail> {
    let mut room = [0u8; 200];
    let mut sink = MemSink::new(&mut room, 200, &[]);
    let summary = Summary {
        games: 2,
        bet: 10,
        paid: 4030,
        credits: 4120,
        slips: 1,
        loss: 476500200,
    };
    assert!(rt; put_summary(&summary, 52, &mut sink).is_ok());
    let text = b"games 2
bet 10
paid 4030
credits 4120
slips 1
loss 476500200 / 7669695
";
    assert_eq!(rt; sink.taken(), text.as_slice());
    Ok(())
}
