//! What a script asks for, and what is to come of it.
use crate::bytes::put_sized;
use sn_ports::{Calls, NoMemory, Text, Word};
use std::alloc::Global;
use std::mem;

/// What comes over a connection.
#[derive(Drop)]
pub enum Step {
    Bytes(Text),
    /// So many blocks are due.
    Ticks(u32),
}

/// A connection: when its block 0 begins, and what comes over it.
#[derive(Drop)]
pub struct Connection {
    pub base: u64,
    pub steps: Vec<Step>,
}

/// A session of several clients: the most turns, the numbers that its pulse gives, and what comes of each client.
#[derive(Drop)]
pub struct Session {
    pub most: u32,
    pub numbers: Vec<u32>,
    pub streams: Vec<Text>,
}

/// How many bytes a call moves at most, and the numbers of the calls that fail, from 0.
#[derive(Drop)]
pub struct Port {
    pub piece: u32,
    pub fails: Vec<u32>,
}

impl Port {
    fn new(alloc: Global, piece: u32) -> Port {
        Port {
            piece,
            fails: Vec::new(alloc),
        }
    }

    pub fn calls(&self, alloc: Global) -> Result<Calls, NoMemory> {
        Ok(Calls::from_vec(Vec::from_slice(alloc, &self.fails)?))
    }
}

/// A gate that holds two jobs until both have come to it, for a number of turns at most.
#[derive(Drop)]
pub struct Hold {
    pub one: u32,
    pub other: u32,
    pub turns: u32,
    /// Both are to come.
    pub meets: bool,
}

/// Further renderings of a case, each of which is to give the same.
#[derive(Drop)]
pub struct Again {
    /// By so many workers.
    pub workers: Vec<u32>,
    /// How often by each number of workers.
    pub times: u32,
    /// The seed of the turns for which a job waits at the gate.
    pub seed: u64,
}

/// A stream of commands with its settings, and what is to come of it.
#[derive(Drop)]
pub struct Case {
    pub name: String,
    /// The words of the command line.
    pub words: Vec<Word>,
    /// The stream: packets after their sizes.
    pub stream: Text,
    /// The bundle that is being filled, if there is one.
    pub bundle: Option<Text>,
    /// The bytes of the replies.
    pub replies: Text,
    /// The bytes of the sound after its header.
    pub sound: Text,
    /// The sum of all bytes of the sound, if it is given in their place.
    pub sum: Option<u64>,
    /// The number of blocks.
    pub blocks: u64,
    /// How many bytes of the stream are not taken, if that is said.
    pub left: Option<u64>,
    /// The line of its end, if that isn't `done`.
    pub ending: Option<String>,
    /// The case of the same sound and replies.
    pub same: Option<String>,
    /// The connection that is served, if the stream is not rendered.
    pub connection: Option<Connection>,
    /// The session that is served in its place.
    pub session: Option<Session>,
    /// The gate that the jobs pass, if two are held at it.
    pub hold: Option<Hold>,
    pub again: Option<Again>,
    pub source_port: Port,
    pub sound_port: Port,
    pub reply_port: Port,
}

impl Case {
    /// A case of this name, in which nothing comes yet.
    pub fn new(alloc: Global, name: &str) -> Result<Case, NoMemory> {
        let mut words = Vec::new(alloc);
        words.push(Text::from_slice(alloc, b"render")?)?;
        Ok(Case {
            name: String::from_str(alloc, name)?,
            words,
            stream: Text::new(alloc),
            bundle: None,
            replies: Text::new(alloc),
            sound: Text::new(alloc),
            sum: None,
            blocks: 0,
            left: None,
            ending: None,
            same: None,
            connection: None,
            session: None,
            hold: None,
            again: None,
            source_port: Port::new(alloc, 4096),
            sound_port: Port::new(alloc, 65536),
            reply_port: Port::new(alloc, 65536),
        })
    }

    /// Puts the bundle that is being filled into the stream.
    pub fn close_bundle(&mut self) -> Result<(), NoMemory> {
        match self.bundle.take() {
            Some(bundle) => put_sized(&mut self.stream, bundle.as_slice()),
            None => Ok(()),
        }
    }

    /// Puts the bytes of a packet into the bundle that is being filled, or else into the stream.
    pub fn put_element(&mut self, element: &Text) -> Result<(), NoMemory> {
        match &mut self.bundle {
            Some(bundle) => put_sized(bundle, element.as_slice()),
            None => put_sized(&mut self.stream, element.as_slice()),
        }
    }

    /// What was put into the stream comes over the connection, or of the next client of the session.
    pub fn send_stream(&mut self, alloc: Global) -> Result<(), NoMemory> {
        self.close_bundle()?;
        if let Some(connection) = &mut self.connection {
            let bytes = mem::replace(&mut self.stream, Text::new(alloc));
            connection.steps.push(Step::Bytes(bytes))?;
        } else if let Some(session) = &mut self.session {
            let bytes = mem::replace(&mut self.stream, Text::new(alloc));
            session.streams.push(bytes)?;
        }
        Ok(())
    }

    /// Its stream is rendered.
    pub fn is_rendered(&self) -> bool {
        self.connection.is_none() && self.session.is_none()
    }
}
