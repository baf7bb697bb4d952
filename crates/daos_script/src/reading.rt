// What was read of a script so far.
ghost use Rattle.std.specs.Prelude.{◌≡◌, ◌<◌, ◌^◌, None};
ghost use Rattle.base_types.specs.Scripts.{IsUnit};
ghost use Rattle.base_names.specs.Names.{named};
ghost use Rattle.script_words.specs.Lookups.{cont_named, obj_named, old_named};
ghost use Rattle.script_words.specs.Reads.{Gives};
ghost use Rattle.daos_script.specs.Lists.{pending};
ghost use Rattle.daos_script.specs.News.{IsNew};
ghost use Rattle.daos_script.specs.Puts.{add_line, nothing_read, put_client, put_cont, put_do_at, put_drop, put_obj, put_old, put_snap, put_step, put_stop, put_tell};

use crate::lists::Lists;
use crate::present::Step;
use crate::tx::lone;
use base_types::fault::Why;
use base_types::id::ContId;
use base_types::key::Key;
use base_types::operation::Op;
use base_types::script::{Command, ContDecl, ObjDecl, OldDecl, StopDecl};
use script_lines::line::{At, Line};
use script_words::decls::Decls;
use script_words::fault::LineNo;
use std::alloc::Global;

/// What was read so far: what is declared, and the lists of the clients. After an error nothing is said
/// of what it holds.
#[derive(Drop)]
pub struct Reading {
    pub decls: Decls,
    pub lists: Lists,
}

impl Reading {
    /// Nothing read yet, of a script for so many targets.
    pub fn new(alloc: Global, targets: u8) -> Reading
        ensures { result ≡ nothing_read targets }
    {
        Reading {
            decls: Decls::new(alloc, targets),
            lists: Lists::new(alloc),
        }
    }

    #[tactic(auto, unfolding(crate::specs::Puts::put_cont))]
    fn put_cont(&mut self, alloc: Global, decl: ContDecl) -> Result<(), LineNo>
        requires { cont_named self.old.decls.conts decl.name ≡ None }
        ensures { Gives (λ done. self.new) result (put_cont self.old decl) }
    {
        if self.lists.present.client.is_some() {
            return Err(LineNo::Fault(Why::BadBlock));
        }
        self.decls.add_cont(alloc, decl)?;
        Ok(())
    }

    #[tactic(auto, unfolding(crate::specs::Puts::put_obj))]
    fn put_obj(&mut self, alloc: Global, decl: ObjDecl) -> Result<(), LineNo>
        requires new { obj_named self.old.decls.objs decl.name ≡ None }
        requires unit { IsUnit decl.id.unit }
        ensures { Gives (λ done. self.new) result (put_obj self.old decl) }
    {
        if self.lists.present.client.is_some() {
            return Err(LineNo::Fault(Why::BadBlock));
        }
        self.decls.add_obj(alloc, decl)?;
        Ok(())
    }

    #[tactic(auto, unfolding(crate::specs::Puts::put_old))]
    fn put_old(&mut self, alloc: Global, decl: OldDecl) -> Result<(), LineNo>
        requires { old_named self.old.decls.olds decl.name ≡ None }
        ensures { Gives (λ done. self.new) result (put_old self.old decl) }
    {
        if self.lists.present.client.is_some() {
            return Err(LineNo::Fault(Why::BadBlock));
        }
        self.decls.add_old(alloc, decl)?;
        Ok(())
    }

    #[tactic(auto, unfolding(crate::specs::Puts::put_drop))]
    fn put_drop(&mut self, name: Key) -> Result<(), LineNo>
        ensures { Gives (λ done. self.new) result (put_drop self.old name) }
    {
        if self.lists.present.client.is_some() {
            return Err(LineNo::Fault(Why::BadBlock));
        }
        self.decls.add_drop(name)?;
        Ok(())
    }

    #[tactic(auto, unfolding(crate::specs::Puts::put_stop))]
    fn put_stop(&mut self, decl: StopDecl) -> Result<(), LineNo>
        ensures { Gives (λ done. self.new) result (put_stop self.old decl) }
    {
        if self.lists.present.client.is_some() {
            return Err(LineNo::Fault(Why::BadBlock));
        }
        self.decls.add_stop(decl)?;
        Ok(())
    }

    #[tactic(auto, unfolding(crate::specs::Puts::put_client))]
    fn put_client(&mut self, alloc: Global) -> Result<(), LineNo>
        ensures { Gives (λ done. self.new) result (put_client self.old) }
    {
        self.lists.begin_client(alloc)?;
        self.decls.begin_next(alloc);
        Ok(())
    }

    #[tactic(auto, unfolding(crate::specs::Puts::put_step))]
    fn put_step(&mut self, alloc: Global, step: Step) -> Result<(), LineNo>
        requires { pending self.old.lists < 2 ^ 63 }
        ensures { Gives (λ done. self.new) result (put_step self.old step) }
    {
        self.lists.add_step(alloc, step)?;
        Ok(())
    }

    #[tactic(auto, unfolding(crate::specs::Puts::put_do_at))]
    fn put_do_at(&mut self, alloc: Global, at: At, op: Op) -> Result<(), LineNo>
        requires { pending self.old.lists < 2 ^ 63 }
        ensures { Gives (λ done. self.new) result (put_do_at self.old at op) }
    {
        let At { name, cont: _cont } = at;
        let command = lone(alloc, Some(name), op)?;
        self.put_step(alloc, Step::Number(command))
    }

    #[tactic(auto, unfolding(crate::specs::Puts::put_snap))]
    fn put_snap(&mut self, alloc: Global, name: Key, cont: ContId) -> Result<(), LineNo>
        requires made { named self.old.decls.made name ≡ None }
        requires own { named self.old.decls.own name ≡ None }
        requires pending { pending self.old.lists < 2 ^ 63 }
        ensures { Gives (λ done. self.new) result (put_snap self.old name cont) }
    {
        self.decls.add_own(alloc, &name, cont)?;
        let command = Command::Snap { name, cont };
        self.lists.add_step(alloc, Step::Number(command))?;
        Ok(())
    }

    #[tactic(auto, unfolding(crate::specs::Puts::put_tell))]
    fn put_tell(&mut self, line: u32, to: u16) -> Result<(), LineNo>
        ensures { Gives (λ done. self.new) result (put_tell line self.old to) }
    {
        self.lists.add_tell(line, to)?;
        Ok(())
    }

    /// Adds what the line of this number says.
    pub fn add_line(&mut self, alloc: Global, at: u32, line: Line) -> Result<(), LineNo>
        requires new { IsNew self.old.decls line }
        requires pending { pending self.old.lists < 2 ^ 63 }
        ensures { Gives (λ done. self.new) result (add_line at self.old line) }
    {
        match line {
            Line::Cont(decl) => self.put_cont(alloc, decl),
            Line::Obj(decl) => self.put_obj(alloc, decl),
            Line::Old(decl) => self.put_old(alloc, decl),
            Line::Drop(name) => self.put_drop(name),
            Line::Stop(decl) => self.put_stop(decl),
            Line::Client => self.put_client(alloc),
            Line::Do(op) => self.put_step(alloc, Step::Do(op)),
            Line::DoAt(snapshot, op) => self.put_do_at(alloc, snapshot, op),
            Line::Tx => self.put_step(alloc, Step::Begin(at, None)),
            Line::TxAt(snapshot) => self.put_step(alloc, Step::Begin(at, Some(snapshot))),
            Line::End => self.put_step(alloc, Step::End),
            Line::Snap(name, cont) => self.put_snap(alloc, name, cont),
            Line::Aggregate(cont) => {
                self.put_step(alloc, Step::Number(Command::Aggregate { cont }))
            }
            Line::Tell(client) => self.put_tell(at, client),
            Line::Skip(turns) => self.put_step(alloc, Step::Skip(turns)),
        }
    }
}
