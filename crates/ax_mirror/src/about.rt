//! Tree data that several mirrors share.

ghost use Rattle.std.specs.Prelude.{◌≡◌, OnOk, IfOk};
ghost use Rattle.ax_tree.specs.Tree.{blank_data};
ghost use Rattle.ax_tree.specs.Updates.{told};

use ax_base::{NoMemory, TreeId};
use ax_node::TreeData;
use std::alloc::Global;
use std::marker::Model;
use std::sync::Arc;

/// Tree data that several owners share.
#[derive(Drop)]
pub struct About {
    // What a reader gets while nothing was told.
    blank: TreeData,
    told: Option<Arc<TreeData>>,
    alloc: Global,
}

impl Model for About {
    ghost use Rattle.std.specs.Prelude.{◌≡◌};
    ghost use Rattle.ax_node.specs.declared.tree_data.TreeData.{TreeData};
    ghost use Rattle.ax_node.specs.contracts.tree_data.TreeData.{the_row};
    ghost use Rattle.ax_tree.specs.Tree.{blank_data};
    ghost use Rattle.ax_mirror.specs.Shared.{data_now};

    ghost Value = { TreeData };

    ghost coded = { the_row.coded };

    ghost view = { λ a. data_now a.blank a.told };

    ghost invariant = { λ a. a.blank ≡ blank_data a.blank.tree };
}

impl About {
    pub fn new(alloc: Global, tree: TreeId) -> About
        ensures { result ≡ blank_data tree }
    {
        About {
            blank: TreeData::blank(alloc, tree),
            told: None,
            alloc,
        }
    }

    pub fn get(&self) -> &TreeData
        ensures { result.now ≡ self.now }
    {
        match &self.told {
            Some(told) => &**told,
            None => &self.blank,
        }
    }

    /// The same data. It takes no memory.
    pub fn share(&self) -> Result<About, NoMemory>
        ensures { IfOk result (λ a. a ≡ self.now) }
    {
        let blank = TreeData::blank(self.alloc, self.blank.tree);
        match &self.told {
            Some(told) => match Arc::try_clone(told) {
                Ok(told) => Ok(About {
                    blank,
                    told: Some(told),
                    alloc: self.alloc,
                }),
                Err(_) => Err(NoMemory),
            },
            None => Ok(About {
                blank,
                told: None,
                alloc: self.alloc,
            }),
        }
    }

    /// Puts new tree data in the place of the old ones, but for the tree id.
    pub fn tell(&mut self, news: &Option<TreeData>) -> Result<(), NoMemory>
        ensures { OnOk result (self.new ≡ told news.now self.old) }
    {
        let tree = self.get().tree;
        match news {
            Some(news) => {
                let mut data = news.copy()?;
                data.tree = tree;
                match Arc::new(self.alloc, data) {
                    Ok(data) => {
                        self.told = Some(data);
                        Ok(())
                    }
                    Err(_) => Err(NoMemory),
                }
            }
            None => Ok(()),
        }
    }
}
