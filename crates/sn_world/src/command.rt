use sn_osc::Message;
use sn_reply::Reason;
use sn_tree::AddAction;

/// A command on control buses, on buffers, on definitions or on the server itself.
#[derive(Clone, Copy, Debug, PartialEq, Eq)]
pub enum ServerCommand {
    /// `/c_set`
    Set,
    /// `/c_setn`
    SetRuns,
    /// `/c_fill`
    Fill,
    /// `/c_get`
    Get,
    /// `/c_getn`
    GetRuns,
    /// `/b_alloc`
    AllocBuffer,
    /// `/b_allocRead`
    ReadBuffer,
    /// `/b_free`
    FreeBuffer,
    /// `/b_zero`
    ZeroBuffer,
    /// `/b_query`
    QueryBuffers,
    /// `/b_set`
    SetSamples,
    /// `/b_setn`
    SetSampleRuns,
    /// `/b_fill`
    FillSamples,
    /// `/b_get`
    GetSamples,
    /// `/b_getn`
    GetSampleRuns,
    /// `/sync`
    Sync,
    /// `/d_recv`
    Receive,
    /// `/d_free`
    Free,
    /// `/status`
    Status,
    /// `/clearSched`
    ClearSched,
    /// `/quit`
    Quit,
}

/// A command on nodes.
#[derive(Clone, Copy, Debug, PartialEq, Eq)]
pub enum NodeCommand {
    /// `/s_new`
    New,
    /// `/notify`
    Notify,
    /// `/n_run`
    TurnNodes,
    /// `/n_set`
    SetControls,
    /// `/n_setn`
    SetRuns,
    /// `/n_fill`
    FillRuns,
    /// `/n_map`
    MapControls,
    /// `/g_new`
    NewGroup,
    /// `/p_new`
    NewParallel,
    /// `/n_free`
    Free,
    /// `/g_freeAll`
    FreeAll,
    /// `/g_deepFree`
    DeepFree,
    /// `/n_query`
    Query,
    /// `/g_queryTree`
    QueryTree,
    /// `/s_get`
    GetControls,
    /// `/n_before`, `/n_after`, `/g_head`, `/g_tail`
    Move(AddAction),
    /// `/n_order`
    Order,
}

/// A command. Each family is carried out by a crate of its own.
#[derive(Clone, Copy, Debug, PartialEq, Eq)]
pub enum Command {
    /// On nodes, and `/notify`.
    OnNodes(NodeCommand),
    /// On buses, buffers, definitions or the server itself.
    OnServer(ServerCommand),
}

/// How deep completion messages may nest.
pub const MOST_COMPLETIONS: u32 = 8;

/// What a crate of commands did with a message.
#[derive(Debug, Drop)]
pub enum Handled {
    /// The command was carried out.
    Done,
    /// The command was carried out, and this is the completion message that it carries, which is to act next.
    Completion(Message),
    /// `/quit` was carried out: the server ends.
    Quit,
    /// `/clearSched` was accepted: the entries that are due after this boundary must be dropped.
    ClearSched,
    /// The command is refused, and nothing has changed.
    Failed(Reason),
    /// The address is none of the crate's, and nothing has changed.
    NotMine,
}
