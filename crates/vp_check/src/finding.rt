//! What a check of a certificate answers.

/// The rules of a certificate that is in the grammar.
#[derive(Clone, Copy, Debug, PartialEq, Eq)]
pub enum CertRule {
    /// The cards are their least image, and their index is above that of the class line before.
    Order,
    /// The weight is the number of images.
    Weight,
    /// The value is the greatest of the 32 holds.
    Value,
    /// The mask has the greatest value.
    Mask,
    /// The weights sum to the number of deals.
    Cover,
    /// The sum is that of weight times value.
    Sum,
    /// The denominator is the number of deals, times the common denominator of the deck, times the bet.
    Denominator,
}

/// What a certificate says of itself where no rule is broken.
#[derive(Clone, Copy, Debug, PartialEq, Eq)]
pub struct Checked {
    /// The number of class lines.
    pub classes: u32,
    /// The number of class lines whose draws were walked.
    pub walked: u32,
    /// The sum of weight times value, as the certificate says it.
    pub sum: u64,
    /// The denominator, as the certificate says it.
    pub denominator: u64,
}

/// Where a certificate fails.
#[derive(Clone, Copy, Debug, PartialEq, Eq)]
pub enum Finding {
    /// The first line with which the lines so far begin no certificate, or the one past the end.
    Refused {
        line: u32,
    },
    /// The first line that breaks a rule, with its first broken rule: the number that stands there, and the number due.
    Bad {
        line: u32,
        rule: CertRule,
        said: u128,
        due: u128,
    },
}
