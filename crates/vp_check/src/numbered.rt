//! A class line, with the number of its line in the text.

use crate::ClassLine;
use vp_sets::hand_of;

/// A class line, with the number of its line in the text.
#[derive(Clone, Copy, Debug, PartialEq, Eq)]
pub(crate) struct Numbered {
    pub line: u32,
    pub class: ClassLine,
}

/// What stands where no class line stands yet.
impl Default for Numbered {
    fn default() -> Numbered {
        let class = ClassLine {
            hand: hand_of(&[0, 1, 2, 3, 4]),
            weight: 0,
            mask: 0,
            value: 0,
        };
        Numbered { line: 0, class }
    }
}
