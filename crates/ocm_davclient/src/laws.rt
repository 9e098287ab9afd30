ghost use Rattle.ocm_davclient.specs.Laws.{OneClient, OneBody, OneStatus};

/// What each call of a client answers is fixed by its exchanges, but for want of memory: so each fault comes exactly where
/// what came back is what that fault says.
pub fn call_has_one_answer()
    ensures client { OneClient }
    ensures body { OneBody }
    ensures status { OneStatus }
{}
