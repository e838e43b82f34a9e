// What lives report.
use checkpoint::OpenRefused;
use event_model::Reply;
use graph_edits::Graph;
use interleave::Stored;
use requests::SESSIONS;

/// What a life was.
#[derive(Drop)]
pub struct LifeReport {
    /// How many changes were accepted when it opened.
    pub count: u64,
    /// The network that they made.
    pub graph: Graph,
    /// The last ticket of each session then.
    pub tickets: [u64; SESSIONS],
    /// What its rebuild was answered.
    pub rebuilt: Reply,
    /// What its events were answered.
    pub replies: Vec<Reply>,
    /// What its world stored.
    pub stored: Stored,
}

/// What lives were, up to the first that couldn't open.
#[derive(Drop)]
pub struct LivesReport {
    pub lives: Vec<LifeReport>,
    /// Why the life behind these couldn't open, if there is one. A world that had no memory is refused as an opening that has none.
    pub refused: Option<OpenRefused>,
}
