//! What the key identifier of a short message says (MS-SNTP, Authenticator).
ghost use Rattle.std.specs.Prelude.{◌≡◌};
ghost use Rattle.ms_auth.specs.Fields.{asks_previous_in, short_rid_in};

/// The RID of the account: the low 31 bits.
pub fn short_rid(key_id: u32) -> u32
    ensures { result ≡ short_rid_in key_id }
{
    key_id % (1 << 31)
}

/// Whether it asks for the account's previous key: bit 31.
pub fn asks_for_previous(key_id: u32) -> bool
    ensures { result ≡ asks_previous_in key_id }
{
    key_id >= 1 << 31
}
