//! What an engine says of itself, which no rendering asks.
use sn_engine::{Engine, Standing};
use sn_pcm::Settings;
use sn_ports::NoMemory;

/// Whether an engine of three clients says how far it is, before and after its first boundary.
pub fn engine_tells<H: AllocGlobal>(rt: &H) -> Result<bool, NoMemory> {
    let alloc = rt.alloc();
    let mut engine = Engine::open(alloc, &Settings::new(), 0, None, 3)?;
    let is_open = engine.standing() == Standing::Settled && engine.clients() == 3;
    engine.boundary(alloc)?;
    let is_bounded = engine.standing() == Standing::Bounded && engine.puts() == 0;
    Ok(is_open && is_bounded && engine.block() == 0)
}
