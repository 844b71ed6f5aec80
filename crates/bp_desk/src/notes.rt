// What one seat has seen reaches another by a note.
ghost use Rattle.std.specs.Prelude.{◌≡◌, IsOkAnd};
ghost use Rattle.bp_desk.specs.Seats.{IsSeatOf, Met};

use crate::desk::Desk;
use crate::seat::{Note, NoteOf, Seat};
use crate::turns::{Meets, Notes, Settles, TURN};
use bp_core::OutOfMemory;
use bp_keep::Keeper;
use std::alloc::Global;

impl<K: Keeper> Desk<K> {
    /// A note with what the seat has seen. It leaves all that the seat shows. It takes no memory, and is
    /// always Ok.
    pub fn note(&self, alloc: Global, seat: &mut Seat<K>) -> Result<Note<K>, OutOfMemory>
        requires { IsSeatOf self.now seat.old }
        ensures same { seat.new ≡ seat.old }
        ensures note { IsOkAnd result (λ note. (note.desk ≡ seat.old.desk)
            × (note.seen ≡ seat.old.view.seen)) }
    {
        let _ = alloc;
        let place = self.table.shared.split_seat::<Notes>(&mut seat.place);
        Ok(NoteOf { place })
    }

    /// Takes a note in: what the seat has seen then begins with what it had seen and with what the note
    /// has. All else stays.
    pub fn meet(&self, seat: &mut Seat<K>, note: Note<K>)
        requires seat { IsSeatOf self.now seat.old }
        requires note { note.desk ≡ self.now.id }
        ensures same { seat.new.desk ≡ seat.old.desk }
        ensures met { Met seat.old.view note.seen seat.new.view }
    {
        let NoteOf { place } = note;
        self.table.shared.join_seat::<Meets>(&mut seat.place, place);
        self.table.shared.load::<Settles>(&mut seat.place, TURN);
    }
}
