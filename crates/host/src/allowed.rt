// What an equality may do without: an explanation of why its ends were equal at first, or by congruence.
#[derive(Clone, Copy, PartialEq, Eq, Debug)]
pub struct TransEqAllowed {
    pub can_mismatch_initial: bool,
    pub can_mismatch_congr: bool,
}
