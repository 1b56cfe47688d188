// What holds of each layout.
ghost use Rattle.std.specs.Prelude.{◌≡◌, ◌≤◌, ◌<◌, ◌+◌, List, ℕ, length, Bool, true, false, None, Some};
ghost use Rattle.ld_msg.specs.Register.{journal_limit};
ghost use Rattle.ld_op.specs.declared.op.Op.{Op as Kind};
ghost use Rattle.ld_op.specs.Plain.{Plain as State, op_length};
ghost use Rattle.ld_layout.specs.Layout.{Layout, new_layout, new_segment, switches, switched_to, with_record, base_length, IsLaid, AreHeld};
ghost use Rattle.ld_layout.specs.Base.{base_bytes};
ghost use Rattle.ld_layout.specs.declared.segment.Growth.TheVariants.{Still};
ghost use Rattle.ld_layout.specs.declared.segment.Layout.{Layout as Plan};
ghost use Rattle.ld_layout.specs.declared.segment.Segment.{Segment as Stretch};
ghost use Rattle.ld_layout.specs.LaidOut.{laid_out, segment_of, gate_behind, ops_behind, recorded, passes_first, is_past, is_within};

/// No two live areas share a byte: neither on a new disk, nor after a record that fits its segment, nor after a switch,
/// whatever of the record that caused it is on the disk.
pub fn live_areas_stay_apart()
    ensures first { IsLaid new_layout }
    ensures record { (y : Layout) (o : Kind) → IsLaid y → switches y (op_length o) ≡ false → IsLaid (with_record y o) }
    ensures switch { (y : Layout) (cause room : ℕ) → IsLaid y → room ≤ cause → IsLaid (switched_to y cause room) }
{}

/// The length that a layout counts a Base's body with is that of its bytes.
pub fn bases_are_so_long()
    ensures { (kind : ℕ) (index : State) (areas : List (ℕ × ℕ)) → length (base_bytes kind index areas) ≡ base_length index areas }
{}

/// A switch keeps the areas that payloads stand in.
pub fn switches_keep_payloads()
    ensures { (y : Layout) (cause room : ℕ) → IsLaid y → room ≤ cause → AreHeld y → AreHeld (switched_to y cause room) }
{}

/// So does a record, and its own payloads stand in its segment's area.
pub fn records_keep_payloads()
    ensures { (y : Layout) (o : Kind) → IsLaid y → AreHeld y → AreHeld (with_record y o) }
{}

/// Where nothing passes the limit, a layout stays within it: on a new disk, after a record that fits its segment, and after
/// a switch. So its numbers are those that its functions ask for.
pub fn layouts_stay_within()
    ensures first { is_within (record { ops = 0; end = 0; later = None; grows = Still }) ≡ true }
    ensures record { (y : Plan) (index : State) (body : ℕ) (is_op : Bool) → is_within y ≡ true → switches (laid_out y index) body ≡ false → passes_first y.end body y.later ≡ false → is_within (recorded y body is_op) ≡ true }
    ensures switch { (y : Plan) (g : Stretch) (index : State) (cause : ℕ) → is_within y ≡ true → segment_of g ≡ new_segment (laid_out y index) cause cause → is_past index (segment_of g) ≡ false → is_within (record y { later = Some g }) ≡ true }
    ensures numbers { (y : Plan) → is_within y ≡ true → (y.end ≤ journal_limit) × ((gate_behind y.end y.later ≤ journal_limit) × (ops_behind y.ops y.later ≤ journal_limit)) }
{}
