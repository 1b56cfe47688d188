// Draws.
ghost use Rattle.std.specs.Prelude.{◌≡◌, ◌<◌, ◌^◌};
ghost use Rattle.ld_maker.specs.Draw.{drawn, value_of};

/// The state after one draw from this state.
pub fn drawn(state: u64) -> u64
    ensures { result ≡ drawn state }
{
    state
        .wrapping_mul(6_364_136_223_846_793_005)
        .wrapping_add(1_442_695_040_888_963_407)
}

/// The value of the draw that leads to this state, its upper 31 bits.
pub fn value_of(state: u64) -> u32
    ensures value { result ≡ value_of state }
    ensures bound { result < 2 ^ 31 }
{
    (state / 0x2_0000_0000) as u32
}
