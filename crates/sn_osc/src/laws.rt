//! Laws of packets and frames, each a fact about all of them.
ghost use Rattle.std.specs.Prelude.{◌≡◌, ◌≤◌, ◌<◌, ◌^◌, ◌*◌, ◌++◌, ◌↔◌, IsTrue, slice_index, List, [], ℕ, ℤ, Ok, length, map};
ghost use Rattle.sn_ports.specs.Limits.{most_packet};
ghost use Rattle.sn_osc.specs.Shape.{Argument, MessageShape, Shape, arguments};
ghost use Rattle.sn_osc.specs.Bytes.{message_bytes, packet_bytes, frame_bytes};
ghost use Rattle.sn_osc.specs.Frames.{Frames, StreamFaultAt, frame, bad_size, is_frame_size, first_frame};
ghost use Rattle.sn_osc.specs.Framing.{Framing};
ghost use Rattle.sn_osc.specs.Framed.{AreFirst, HasNoFrame, packet_of};
ghost use Rattle.sn_osc.specs.Grammar.{Spells, IsSpellable};
ghost use Rattle.sn_osc.specs.Reading.{fault, read};
ghost use Rattle.sn_osc.specs.Faults.{FirstFault};
ghost use Rattle.sn_osc.specs.Unpacking.{Unpacked, AreWholeFrames, unpacked, joined_to};
ghost use Rattle.sn_osc.specs.declared.fault.PacketFault.{PacketFault};
ghost use Rattle.sn_osc.specs.declared.fault.PacketKind.{PacketKind};
ghost use Rattle.sn_osc.specs.declared.fault.StreamFault.{StreamFault};
ghost use Rattle.sn_osc.specs.declared.frame.Frame.{Frame};

/// Each packet has one spelling.
pub fn one_spelling()
    ensures { (x : Shape) (bytes : List ℕ) → Spells x bytes → bytes ≡ packet_bytes x }
{}

/// Each spelling spells one packet.
pub fn one_packet()
    ensures { (x y : Shape) (bytes : List ℕ) → Spells x bytes → Spells y bytes → x ≡ y }
{}

/// What is encoded is decoded to the same shape, if it is no longer than a packet may be.
pub fn decoded_again()
    ensures { (x : Shape) → IsSpellable x → length (packet_bytes x) ≤ most_packet → read (packet_bytes x) ≡ Ok x }
{}

/// Bytes that spell a packet have no fault.
pub fn no_fault()
    ensures { (x : Shape) (bytes : List ℕ) (f : PacketFault) → length bytes ≤ most_packet → Spells x bytes → FirstFault bytes f.kind f.place → ⊥ }
{}

/// No frame begins another.
pub fn no_prefix()
    ensures { (a b rest : List ℕ) → length a < 2 ^ 32 → length b < 2 ^ 32 → frame_bytes a ++ rest ≡ frame_bytes b → rest ≡ [] }
{}

/// A frame at the start of a stream is found, whatever follows it: what is fed later changes no frame that is whole.
pub fn frame_found()
    ensures { (packet rest : List ℕ) → IsTrue (is_frame_size (length packet)) → first_frame (frame_bytes packet ++ rest) ≡ frame packet rest }
{}

/// A frame that is found stands at the start of the stream.
pub fn frame_stands()
    ensures { (bytes packet rest : List ℕ) → ((i : ℕ) → slice_index bytes i < 256) → first_frame bytes ≡ frame packet rest → bytes ≡ frame_bytes packet ++ rest }
{}

/// Each argument has 4 bytes or more.
pub fn four_bytes_each()
    ensures { (x : MessageShape) (xs : List Argument) → x.body ≡ arguments xs → 4 * length xs ≤ length (message_bytes x) }
{}

/// Whatever pieces a stream came in, its whole frames are the same, and so is what is kept.
pub fn one_framing()
    ensures { (stream : List ℕ) (fs gs : List Frame) (f g : Framing) → AreFirst stream fs f → AreFirst stream gs g → HasNoFrame f.kept → HasNoFrame g.kept → (map packet_of fs ≡ map packet_of gs) × (f ≡ g) }
{}

/// A bad size stays one, whatever follows it.
pub fn bad_for_good()
    ensures { (bytes more : List ℕ) (size : ℤ) → first_frame bytes ≡ bad_size size → first_frame (bytes ++ more) ≡ bad_size size }
{}

/// Reading from left to right meets a fault exactly if it is the first: whole data that the grammar allows stand before
/// it.
pub fn first_fault()
    ensures { (bytes : List ℕ) (kind : PacketKind) (place : ℕ) → ((i : ℕ) → slice_index bytes i < 256) → (read bytes ≡ fault kind place) ↔ FirstFault bytes kind place }
{}

/// The whole frames at the start of a stream are the same in whatever pieces it comes.
pub fn joined_frames()
    ensures { (a b : List ℕ) → unpacked (a ++ b) ≡ joined_to (unpacked a) b }
{}

/// What is unpacked of bytes is all whole frames at their start: the frames are the first of the bytes, and no whole
/// frame follows them. Nothing else is unpacked of them.
pub fn whole_frames()
    ensures all { (bytes : List ℕ) → ((i : ℕ) → slice_index bytes i < 256) → AreWholeFrames bytes (unpacked bytes) }
    ensures only { (bytes : List ℕ) (u : Unpacked) → ((i : ℕ) → slice_index bytes i < 256) → AreWholeFrames bytes u → unpacked bytes ≡ u }
{}

/// A stream is the frames of one list of packets at most.
pub fn one_list_of_packets()
    ensures { (xs ys : List Shape) (stream : List ℕ) → Frames xs stream → Frames ys stream → xs ≡ ys }
{}

/// A stream has one first fault at most, and none if it is the frames of packets.
pub fn one_fault_of_a_stream()
    ensures one { (stream : List ℕ) (m n p q : ℕ) (a b : StreamFault) → StreamFaultAt stream m p a → StreamFaultAt stream n q b → (m ≡ n) × (p ≡ q) × (a ≡ b) }
    ensures none { (stream : List ℕ) (xs : List Shape) (n p : ℕ) (a : StreamFault) → Frames xs stream → StreamFaultAt stream n p a → ⊥ }
{}
