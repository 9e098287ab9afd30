use ocm_server_connections::Ended;

/// A connection that came back to its door, with the ending of its service.
#[derive(Drop)]
pub struct Back<C> {
    pub conn: C,
    pub ended: Ended,
}
