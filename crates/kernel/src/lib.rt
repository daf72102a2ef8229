// The thirteen kernels of kernel.rs under the source's names.
#![tactic(auto)]

pub use kernel_diag::{diag_matsolve_inplaced, diag_solve_inplaced};
pub use kernel_diag_right::diag_right_matsolve_inplace;
pub use kernel_lower::{lower_matsolve_inplace, lower_solve_inplace};
pub use kernel_lower_transpose::{lower_transpose_matsolve_inplace, lower_transpose_solve_inplace};
pub use kernel_product::{add_mat_diag_mat_t_inplace, sub_mat_diag_mat_t_inplace};
pub use kernel_right::lower_right_solve_inplace;
pub use kernel_right_transpose::lower_transpose_rightsolve_inplace;
pub use kernel_vector::sub_mat_plus_vec_inplace;
pub use kernel_vector_transpose::sub_mat_transpose_plus_vec_in_place;
