// What hearing a packet answers, in numbers, for C callers, who lend their state.
ghost use Rattle.std.specs.Prelude.{◌≡◌};
ghost use Rattle.packet.specs.Packet.{refused_by};
ghost use Rattle.packet.specs.Told.{told};

use crate::hearing::PacketRefusal;

// The refusal's number, 0 where the packet is accepted, and the place of the refused record, 0 where there is none.
#[repr(C)]
#[derive(Clone, Copy, Debug, PartialEq, Eq)]
pub struct PacketAnswer {
    pub refusal: u8,
    pub place: usize,
}

impl From<PacketRefusal> for PacketAnswer {
    ghost from_gives = { λ refused a. a ≡ told (refused_by refused) };

    fn from(refused: PacketRefusal) -> PacketAnswer {
        PacketAnswer {
            refusal: u8::from(refused.refusal),
            place: refused.place.unwrap_or(0),
        }
    }
}
