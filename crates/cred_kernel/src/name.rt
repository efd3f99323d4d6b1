//! Which kernel it is.
ghost use Rattle.std.specs.Prelude.{List};
ghost use Rattle.atomic_table.specs.Seated.{TableId};
ghost use Rattle.cred_record.specs.File.{File};
ghost use Rattle.cred_model.specs.Script.{Script};

use std::marker::Brand;

/// Which kernel it is: its script, its roll, its cells, and the files as the setup left them, which
/// contracts alone see. A kernel and its turns have the same name in their types. Each call of a
/// program picks one.
pub trait Name {
    ghost script: { Script };

    ghost roll: { TableId };

    ghost cells: { TableId };

    ghost inodes: { List File };
}

impl Name for Brand {
    ghost use Rattle.std.specs.Prelude.{[]};
    ghost use Rattle.cred_kernel.specs.Turns.{no_script, no_table};

    ghost script = { no_script };

    ghost roll = { no_table };

    ghost cells = { no_table };

    ghost inodes = { [] };
}

/// Which part of the journal it is, by the entries of the parts before it, which contracts alone
/// see. Each part that is run picks one.
pub trait Part {
    ghost use Rattle.cred_event.specs.declared.entry.Entry.{Entry};

    ghost earlier: { List Entry };
}

impl Part for Brand {
    ghost use Rattle.std.specs.Prelude.{[]};

    ghost earlier = { [] };
}
