ghost use Rattle.std.specs.Prelude.{◌≡◌, ◌≤◌, length};
ghost use Rattle.ebml_core.specs.Spelling.{unsigned_of};

/// The unsigned number that at most 8 octets stand for, the high one first; no octets are 0
/// (RFC 8794 section 7.2).
#[tactic(auto, unfolding(crate::specs::Spelling::unsigned_of))]
pub fn unsigned(octets: &[u8]) -> u64
    requires { length octets.now ≤ 8 }
    ensures { result ≡ unsigned_of octets.now }
{
    let mut number = 0;
    for octet in octets {
        number = number * 256 + u64::from(*octet);
    }
    number
}
