// The tests, by layer.
mod adding;
mod alphabets;
mod comparing;
mod drafts;
mod drawn_comparisons;
mod drawn_reductions;
mod lists;
mod measures;
mod reducing;
mod weighing;
