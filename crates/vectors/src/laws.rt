//! Worked values, computed from the definitions: a definition of something else does not give them.

ghost use Rattle.std.specs.Prelude.{◌≡◌, [], ◌∷◌, codes, true, false};
ghost use Rattle.block_check.specs.Crc16.{crc_of};
ghost use Rattle.dex_line.specs.FrameShapes.{Ack0, Ack1, Block, Damaged, Enq, Eot, Header, Nak};
ghost use Rattle.dex_line.specs.FrameSpelling.{spelling};
ghost use Rattle.dex_handshake.specs.Wire.{first_wire, flights, Damage, Deliver, Lose, QuietAt};
ghost use Rattle.dsd_values.specs.declared.role.Role.TheVariants.{Supplier};
ghost use Rattle.dsd_pricing.specs.Pricing.{extended};

/// The CRC-16 that takes the lowest bit first and starts at 0. The check of the catalogues of checks is BB3D; those of no
/// bytes and of a byte 0 are 0, and that of `A` is 30C0; those of two blocks with the text `A` are 5170 and 5E70.
pub fn checks_are_worked()
    ensures catalogue { crc_of (codes "123456789") ≡ 0xBB3D }
    ensures nothing { crc_of [] ≡ 0 }
    ensures zero { crc_of (0 ∷ []) ≡ 0 }
    ensures letter { crc_of (0x41 ∷ []) ≡ 0x30C0 }
    ensures last_block { crc_of (0x41 ∷ 0x03 ∷ []) ≡ 0x5170 }
    ensures block { crc_of (0x41 ∷ 0x17 ∷ []) ≡ 0x5E70 }
{}

/// A reply is 10 30; the last block with the text `A` is 10 02 41 10 03 70 51, and one that others follow 10 02 41 10 17 70 5E.
pub fn frames_are_worked()
    ensures reply { spelling Ack0 ≡ 0x10 ∷ 0x30 ∷ [] }
    ensures last_block { spelling (Block true (0x41 ∷ [])) ≡ 0x10 ∷ 0x02 ∷ 0x41 ∷ 0x10 ∷ 0x03 ∷ 0x70 ∷ 0x51 ∷ [] }
    ensures block { spelling (Block false (0x41 ∷ [])) ≡ 0x10 ∷ 0x02 ∷ 0x41 ∷ 0x10 ∷ 0x17 ∷ 0x70 ∷ 0x5E ∷ [] }
{}

/// In cents, and the cost in ten-thousandths: 12 at 1.25 is 1500, 3 at .3333 is 99.99 and so 100, 1 at .005 is half a cent
/// and so 1.
pub fn extensions_are_worked()
    ensures whole { extended 12 12_500 ≡ 1500 }
    ensures nearest { extended 3 3_333 ≡ 100 }
    ensures half { extended 1 50 ≡ 1 }
{}

/// What goes over a wire where it is clean, where a block is broken, and where a reply is lost.
pub fn exchanges_are_worked()
    // The 26 frames of a clean exchange: the supplier's turns are given `A` and nothing, and the receiver's `B` and nothing.
    ensures clean { flights (first_wire (codes "HH00000001") (codes "RR00000001") (codes "RR00000001") (codes "HH00000001") (codes "A" ∷ [] ∷ []) (codes "B" ∷ [] ∷ []))
        (Deliver ∷ Deliver ∷ Deliver ∷ Deliver ∷ Deliver ∷ Deliver ∷ Deliver ∷ Deliver ∷ Deliver ∷ Deliver ∷ Deliver ∷ Deliver ∷ Deliver ∷ Deliver ∷ Deliver ∷ Deliver ∷ Deliver ∷ Deliver ∷ Deliver ∷ Deliver ∷ Deliver ∷ Deliver ∷ Deliver ∷ Deliver ∷ Deliver ∷ Deliver ∷ [])
        ≡ Enq ∷ Ack0 ∷ Header (codes "HH00000001SR01L01") ∷ Ack1 ∷ Eot ∷ Enq ∷ Ack0 ∷ Header (codes "00RR00000001R01L01") ∷ Ack1 ∷ Eot ∷ Enq ∷ Ack0 ∷ Block true (codes "A") ∷ Ack1 ∷ Eot ∷ Enq ∷ Ack0 ∷ Block true (codes "B") ∷ Ack1 ∷ Eot ∷ Enq ∷ Ack0 ∷ Eot ∷ Enq ∷ Ack0 ∷ Eot ∷ [] }
    // A broken block is asked for again, and said again.
    ensures broken { flights (first_wire (codes "HH00000001") (codes "RR00000001") (codes "RR00000001") (codes "HH00000001") (codes "A" ∷ []) ([]))
        (Deliver ∷ Deliver ∷ Deliver ∷ Deliver ∷ Deliver ∷ Deliver ∷ Deliver ∷ Deliver ∷ Deliver ∷ Deliver ∷ Deliver ∷ Deliver ∷ Damage ∷ Deliver ∷ Deliver ∷ Deliver ∷ Deliver ∷ [])
        ≡ Enq ∷ Ack0 ∷ Header (codes "HH00000001SR01L01") ∷ Ack1 ∷ Eot ∷ Enq ∷ Ack0 ∷ Header (codes "00RR00000001R01L01") ∷ Ack1 ∷ Eot ∷ Enq ∷ Ack0 ∷ Block true (codes "A") ∷ Damaged ∷ Nak ∷ Block true (codes "A") ∷ Ack1 ∷ Eot ∷ [] }
    // Behind a lost reply the Enq of a Quiet is answered by that reply.
    ensures lost { flights (first_wire (codes "HH00000001") (codes "RR00000001") (codes "RR00000001") (codes "HH00000001") (codes "A" ∷ []) ([]))
        (Deliver ∷ Deliver ∷ Deliver ∷ Deliver ∷ Deliver ∷ Deliver ∷ Deliver ∷ Deliver ∷ Deliver ∷ Deliver ∷ Deliver ∷ Deliver ∷ Deliver ∷ Lose ∷ QuietAt Supplier ∷ Deliver ∷ Deliver ∷ [])
        ≡ Enq ∷ Ack0 ∷ Header (codes "HH00000001SR01L01") ∷ Ack1 ∷ Eot ∷ Enq ∷ Ack0 ∷ Header (codes "00RR00000001R01L01") ∷ Ack1 ∷ Eot ∷ Enq ∷ Ack0 ∷ Block true (codes "A") ∷ Ack1 ∷ Enq ∷ Ack1 ∷ Eot ∷ [] }
{}
