ghost use Rattle.std.specs.Prelude.{◌≡◌, ◌≤◌, length, drop, Some};
ghost use Rattle.opal_base.specs.Outside.{Delivers};

/// Bytes that are read from the front.
#[derive(Drop)]
pub struct Reading {
    pub bytes: Vec<u8>,
    pub at: usize,
    pub ghost within: { at ≤ length bytes.items },
}

impl Reading {
    pub fn new(bytes: Vec<u8>) -> Reading
        ensures { drop result.at result.bytes.items ≡ bytes.items }
    {
        Reading { bytes, at: 0 }
    }

    pub fn read(&mut self, buf: &mut [u8]) -> usize
        ensures { Delivers (Some (drop self.old.at self.old.bytes.items)) (Some (drop self.new.at self.new.bytes.items)) buf.new result }
    {
        let rest = &self.bytes[self.at..];
        let count = buf.len().min(rest.len());
        buf[..count].copy_from_slice(&rest[..count]);
        self.at += count;
        count
    }
}
