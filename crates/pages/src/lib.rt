#![tactic(auto)]

// A page: texts are written on it, one behind the other, as much of each as fits.
ghost use Rattle.pages.specs.Pages.{Written};

// Room for texts, and how much of it is written.
#[derive(Drop)]
pub struct Page<'a> {
    pub room: &'a mut [u8],
    pub at: usize,
}

impl<'a> Page<'a> {
    // A text behind what is written, as much of it as fits.
    pub fn put(&mut self, text: &[u8])
        ensures { Written self.old text.now self.new }
    {
        self.at = writing::put(self.room, self.at, text);
    }
}
