ghost use Rattle.std.specs.Prelude.{◌≡◌, ◌<◌, ◌≤◌, ◌+◌};
ghost use Rattle.ocm_journal_image.specs.Layout.{IsAreaSize};

use ocm_disk::Disk;

/// A journal on a disk: records, each of which is there whole after a crash, or not at all.
pub struct Journal<D: Disk> {
    pub(crate) disk: D,
    pub(crate) selector: u64,
    pub(crate) area: u64,
    pub(crate) start: u64,
    pub(crate) form: u8,
    pub(crate) gate: u64,
    pub(crate) stopped: bool,
    ghost selector_within: { (18 ≤ selector) × (selector ≤ 272) },
    ghost area_size: { IsAreaSize area },
    ghost starts: { (512 ≤ start) × (start ≤ 512 + area) },
    ghost gate_within: { (start < gate) × (gate < start + area) },
    ghost inside: { gate < D.size disk },
}

impl<D: Disk + Drop> Drop for Journal<D> {
    fn drop(self) {
        let Journal {
            disk: _,
            selector: _,
            area: _,
            start: _,
            form: _,
            gate: _,
            stopped: _,
        } = self;
    }
}

impl<D: Disk> Journal<D> {
    // The disk alone. (The definitions over a journal can't be named beside the struct, whose ghost fields they rest on.)
    pub(crate) fn into_inner(self) -> D
        ensures { result ≡ self.disk }
    {
        let Journal {
            disk,
            selector: _,
            area: _,
            start: _,
            form: _,
            gate: _,
            stopped: _,
        } = self;
        disk
    }
}
