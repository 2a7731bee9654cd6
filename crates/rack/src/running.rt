ghost use Rattle.std.specs.Prelude.{◌≡◌, ℕ, length, drop, Ok};
ghost use Rattle.recipe.specs.Trees as trees;
ghost use Rattle.book.specs.Calls.{Run, Nothing, Rules, Runs};
ghost use Rattle.book.specs.Statements.{PrintsAlike};
ghost use Rattle.rack.specs.Racks.{places, came_to, run_answer, KeptUnread};

use crate::calls::MEMORY;
use crate::rack::Rack;
use book::{Refusal, RunFault};
use weight::Written;

impl<W: Written> Rack<W> {
    /// Reads a script whole, and carries it out.
    fn perform(&mut self, memory: &mut [W], script: &[u8]) -> Result<usize, RunFault>
        requires { length memory.old ≡ 10240 }
        ensures outcome { Runs W.kind W.writing (places self.old memory.old) script.now (came_to (run_answer result) Nothing (places self.new memory.new)) }
        ensures records { KeptUnread self.old self.new (run_answer result) }
    {
        let recipe = recipe::read(script)?;
        Ok(self.table.perform(recipe.steps(), memory)?)
    }

    /// Carries out a script, and answers how many lines it has.
    pub fn run(&mut self, memory: &mut [W], script: &[u8]) -> Result<usize, Refusal>
        ensures outcome { Rules W.kind W.writing (places self.old memory.old) (length memory.old) (Run script.now) (came_to result Nothing (places self.new memory.new)) }
        ensures beyond { drop 10240 memory.new ≡ drop 10240 memory.old }
        ensures records { KeptUnread self.old self.new result }
        ensures alike { (i : ℕ) (t : trees.Tree trees.script) → result ≡ Ok i → trees.text t ≡ script.now → PrintsAlike W.kind W.writing (places self.old memory.old) (places self.new memory.new) (length memory.old) t }
    {
        if memory.len() < MEMORY {
            return Err(Refusal::ShortMemory);
        }
        Ok(self.perform(&mut memory[0..MEMORY], script)?)
    }
}
