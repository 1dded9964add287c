use crate::set::Set;

/// The public key of a signature tree (RFC 8554, section 5.3).
#[derive(Clone, Copy)]
pub struct PublicKey {
    /// The parameters, which stand in the key's bytes as two type numbers.
    pub set: Set,
    /// The identifier I.
    pub id: [u8; 16],
    /// The root T\[1\].
    pub root: [u8; 32],
}

/// What a signature tree is grown from (RFC 8554, section 5.2 and appendix A). Whoever has it signs.
#[derive(Clone, Copy)]
pub struct PrivateKey {
    /// The parameters.
    pub set: Set,
    /// The identifier I.
    pub id: [u8; 16],
    /// SEED, of which all private values of the leaves are derived.
    pub seed: [u8; 32],
}
