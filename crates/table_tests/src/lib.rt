// Tests of class tables and of the world table.
//
// They stand above the crates that they try, so that those are proved once, without them. Each test
// shows what no clause says: that the definitions mean what was meant (worked files and edits), that
// calls succeed with ample memory, and what a refusal's message looks like. There is nothing here to
// call.
#![tactic(auto)]

#[cfg(test)]
mod class_tables;
#[cfg(test)]
mod worlds;
