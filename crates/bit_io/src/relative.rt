// Numbers that are sent modulo a power of two, brought back to the one that was meant.
ghost use Rattle.std.specs.Prelude.{◌≡◌, ◌<◌, ◌≤◌, ◌^◌, ◌-◌, ◌≤ℤ◌, pos, negsuc};
ghost use Rattle.protocol_model.specs.Bits.{near};

/// The number nearest to the reference that is `v` modulo `max`, after Unreal's `MakeRelative`.
///
/// `max` is at least 2 and at most 65,536; every format of this project has a power of two there.
/// The reference is between -2^62 and 2^62.
pub fn near(v: u32, reference: i64, max: u32) -> i64
    requires least { 2 ≤ max }
    requires most { max ≤ 65536 }
    requires below { v < max }
    requires low { negsuc (2 ^ 62 - 1) ≤ℤ reference }
    requires high { reference ≤ℤ pos (2 ^ 62) }
    ensures { result ≡ near v reference max }
{
    let half = (max / 2) as i64;
    let over = (v as i64 - reference + half).rem_euclid(max as i64);
    reference + over - half
}
