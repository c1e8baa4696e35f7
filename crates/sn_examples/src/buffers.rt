//! What units on buffers read and write. The buffer has four frames.
#![tactic(auto, unfolding(sn_fixed::specs::Literal::literal, sn_def::specs::Reading::defaults_at, sn_def::specs::Units::row_of, sn_fixed::specs::Fixed::frames_of, sn_fixed::specs::Fixed::sat, sn_mem::specs::Blocks::table, sn_io::specs::Between::between, sn_io::specs::BufferUnits::buffer_unit, sn_io::specs::BufferUnits::scattered, sn_io::specs::BufferUnits::set_frame, sn_io::specs::Positions::walk))]

ghost use Rattle.std.specs.Prelude.{◌≡◌, [], ◌∷◌};
ghost use Rattle.sn_def.specs.declared.kind.Kind.TheVariants as kinds;
ghost use Rattle.sn_examples.specs.Values.{samples, steady};
ghost use Rattle.sn_examples.specs.Keeping.{read_from, written_to};

/// BufRd: a frame outside gives 0.
pub fn buf_rd()
    ensures { read_from (samples "10 20 30 40") kinds.BufRd (steady "0" ∷ samples "0 3 2 4 -1" ∷ []) 5 ≡ samples "10 40 30 0 0" ∷ [] }
{}

/// BufRdL at half the index lies between two frames. Without a loop a place after the last frame is that frame; with
/// one the first frame follows the last.
pub fn buf_rd_l()
    ensures held { read_from (samples "10 20 30 40") kinds.BufRdL (steady "0" ∷ samples "0 1 2 7 9 -1" ∷ steady "0.5" ∷ steady "0" ∷ []) 6 ≡ samples "10 15 20 40 40 10" ∷ [] }
    ensures looped { read_from (samples "10 20 30 40") kinds.BufRdL (steady "0" ∷ samples "0 1 2 7 9 -1" ∷ steady "0.5" ∷ steady "1" ∷ []) 6 ≡ samples "10 15 20 25 15 25" ∷ [] }
{}

/// PlayBuf: after the last frame there is 0, or with a loop the first frame.
pub fn play_buf()
    ensures once { read_from (samples "10 20 30 40") kinds.PlayBuf (steady "0" ∷ steady "1" ∷ steady "0" ∷ steady "0" ∷ steady "0" ∷ steady "0" ∷ []) 6 ≡ samples "10 20 30 40 0 0" ∷ [] }
    ensures looped { read_from (samples "10 20 30 40") kinds.PlayBuf (steady "0" ∷ steady "1" ∷ steady "0" ∷ steady "2" ∷ steady "1" ∷ steady "0" ∷ []) 6 ≡ samples "30 40 10 20 30 40" ∷ [] }
{}

/// PlayBufL by half a frame, from frame 2 on.
pub fn play_buf_l()
    ensures once { read_from (samples "10 20 30 40") kinds.PlayBufL (steady "0" ∷ steady "0.5" ∷ steady "0" ∷ steady "2" ∷ steady "0" ∷ steady "0" ∷ []) 6 ≡ samples "30 35 40 40 0 0" ∷ [] }
    ensures looped { read_from (samples "10 20 30 40") kinds.PlayBufL (steady "0" ∷ steady "0.5" ∷ steady "0" ∷ steady "2" ∷ steady "1" ∷ steady "0" ∷ []) 6 ≡ samples "30 35 40 25 10 15" ∷ [] }
{}

/// RecordBuf writes frame after frame while it runs, and stops at the end of the buffer.
pub fn record_buf()
    ensures runs { written_to (samples "10 20 30 40") kinds.RecordBuf (steady "0" ∷ samples "1 0 1" ∷ steady "0" ∷ steady "0" ∷ samples "1 2 3" ∷ []) ≡ samples "1 3 30 40" }
    ensures full { written_to (samples "10 20 30 40") kinds.RecordBuf (steady "0" ∷ steady "1" ∷ steady "0" ∷ steady "0" ∷ samples "1 2 3 4 5" ∷ []) ≡ samples "1 2 3 4" }
{}

/// BufWr: of two samples for one frame the later one stays, and a frame outside is not written.
pub fn buf_wr()
    ensures { written_to (samples "10 20 30 40") kinds.BufWr (steady "0" ∷ samples "2 3 3 4" ∷ samples "1 2 3 4" ∷ []) ≡ samples "0 20 1 3" }
{}

/// BufFrames.
pub fn buf_frames()
    ensures { read_from (samples "10 20 30 40") kinds.BufFrames (steady "0" ∷ []) 1 ≡ samples "4" ∷ [] }
{}
