// The parts of a step that move, and the commands that are such a part: N, P and M. Those that read promise what they do where no global stands.
ghost use Rattle.std.specs.Prelude.{◌≡◌, ◌<◌, length, Ok};
ghost use Rattle.definitions.specs.Given.{Carried, no_globals};
ghost use Rattle.definitions.specs.Editor.{Move, Target};
ghost use Rattle.definitions.specs.Edit.{Op, go, go_ahead, go_to};
ghost use Rattle.editor.specs.Shows.{DoesPart, Performs, at_point, target_numbered};

use crate::walk::{
    gap_to, land_live, pass_record, read_current, read_to, to_source, unpass_record,
};
use crate::{Editor, State, Stop};

// The current line stays current, from its start.
pub fn go_here(st: State) -> State
    ensures { result ≡ at_point st 0 }
{
    State { p: 0, ..st }
}

impl<'a> Editor<'a> {
    ghost use Rattle.editor.specs.Edited.{Does};

    // The next live line is read and becomes current, or EOF. A line is current.
    pub fn go_ahead(&mut self)
        requires { self.old.st.back < length self.old.journal.now }
        ensures { Does (λ j st. DoesPart no_globals j st go_ahead) self.old self.new (Ok tt) }
    {
        let j = &mut *self.journal;
        let s = pass_record(j, self.st);
        let l = land_live(j, s);
        self.st = read_current(j, l);
    }

    // The previous live line becomes current. Where there is none the gap goes back.
    pub fn go_back(&mut self) -> Result<(), Stop>
        ensures { Does (λ j st k r. (c : Carried) → DoesPart c j st (go Move.back) k r) self.old self.new result }
    {
        let j = &mut *self.journal;
        let st = self.st;
        let mut s = st;
        while 0 < s.front {
            s = unpass_record(j, s);
            let at = s.back;
            if j[at] != 45 {
                s.p = 0;
                self.st = s;
                return Ok(());
            }
        }
        gap_to(j, s, st);
        Err(Stop::NoPrevious)
    }

    // Source line a is read and becomes current. Where it cannot the gap goes back.
    pub fn go_to_line(&mut self, a: usize) -> Result<(), Stop>
        requires { 0 < a }
        ensures { Does (λ j st. DoesPart no_globals j st (go_to (Target.line a))) self.old self.new result }
    {
        let j = &mut *self.journal;
        let was = read_to(self.st, a);
        let mut s = to_source(j, was, a - 1);
        let at = s.back;
        if at >= j.len() {
            gap_to(j, s, was);
            self.st = was;
            return Err(Stop::MetEof);
        }
        if j[at] == 45 {
            gap_to(j, s, was);
            self.st = was;
            return Err(Stop::LineDeleted);
        }
        s.p = 0;
        self.st = s;
        Ok(())
    }

    // All lines and EOF are read, and EOF becomes current.
    pub fn go_to_eof(&mut self)
        ensures { Does (λ j st. DoesPart no_globals j st (go_to Target.eof)) self.old self.new (Ok tt) }
    {
        let j = &mut *self.journal;
        let st = self.st;
        let f = st.front;
        let b = st.back;
        let n = j.len() - b;
        gap::shift_down(j, f, b, n);
        let mut s = read_to(st, st.lines + 1);
        s.front = f + n;
        s.back = b + n;
        s.past = st.lines;
        s.source = st.size;
        s.p = 0;
        self.st = s;
    }

    // To what M names: 0 is the current line, 65536 is EOF, and any other number is that source line.
    pub fn go_to(&mut self, target: usize) -> Result<(), Stop>
        ensures { Does (λ j st. DoesPart no_globals j st (go_to (target_numbered target))) self.old self.new result }
    {
        if target == 0 {
            self.st = go_here(self.st);
            return Ok(());
        }
        if target == 65536 {
            self.go_to_eof();
            return Ok(());
        }
        self.go_to_line(target)
    }

    // N
    pub fn next_line(&mut self) -> Result<(), Stop>
        ensures { Does (λ j st. Performs no_globals j st Op.next_line) self.old self.new result }
    {
        if self.st.back >= self.journal.len() {
            return Err(Stop::AtEof);
        }
        self.go_ahead();
        Ok(())
    }

    // P
    pub fn previous_line(&mut self) -> Result<(), Stop>
        ensures { Does (λ j st k r. (c : Carried) → Performs c j st Op.previous_line k r) self.old self.new result }
    {
        self.go_back()
    }

    // M
    pub fn move_to(&mut self, target: usize) -> Result<(), Stop>
        ensures { Does (λ j st. Performs no_globals j st (Op.move (target_numbered target))) self.old self.new result }
    {
        self.go_to(target)
    }
}
